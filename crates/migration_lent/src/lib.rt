// A job card that is lent, under a new table: "the card must go on" (document 02, W14). It reads the lent card whole, makes the call of `card_migration`
// on it, and stores the card of that.
#![tactic(auto)]

ghost use Rattle.card_migration.specs.Promise.{Migrates};

use card::Card;
use refusal::Refusal;

pub fn migrate(card: &mut Card, old: &[u8], new: &[u8], map: &[u8]) -> Result<(), Refusal>
    ensures { Migrates old.now new.now map.now card.old card.new result }
{
    let before = *card;
    let migrated = card_migration::migrated(before, old, new, map);
    let after = migrated.card;
    *card = after;
    migrated.answer
}
