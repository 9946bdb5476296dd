// A job card under a new table (document 02, W14): its masks are carried over by a map of the facts, and its count and sums stay. It takes the card by
// value and returns the next one; `migration_lent` has it on a card that is lent.
#![tactic(auto)]

ghost use Rattle.std.specs.Prelude.{◌≡◌};
ghost use Rattle.card_migration.specs.Migration.{migrated_masks};
ghost use Rattle.card_migration.specs.Promise.{Migrates};
ghost use Rattle.refusal.specs.Checked.{answer_of};

use card::{Card, CardStep};
use reading::Reading;
use refusal::Refusal;

// The masks of a card under the new table. Both tables are judged before the masks, and these under the old one.
fn migrate_masks(masks: Reading, old: &[u8], new: &[u8], map: &[u8]) -> Result<Reading, Refusal>
    ensures { answer_of result ≡ migrated_masks old.now new.now map.now masks }
{
    let from = table::read_table(old)?;
    let to = table::read_table(new)?;
    let sound = reading::check_reading(from.facts, 0, masks)?;
    fact_map::map_reading(from.facts, to.facts, map, sound)
}

pub fn migrated(card: Card, old: &[u8], new: &[u8], map: &[u8]) -> CardStep
    ensures { Migrates old.now new.now map.now card result.card result.answer }
{
    let masks = card::masks_of(card);
    match migrate_masks(masks, old, new, map) {
        Err(x) => card::refuse(card, x),
        Ok(carried) => card::accept(card::with_masks(card, carried)),
    }
}
