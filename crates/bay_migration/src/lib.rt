// The C interface to a card under a new table: bay_migrate of include/bay.h, over the proved function of the same meaning. It takes every input.
#![tactic(auto)]

ghost use Rattle.std.specs.Prelude.{ℕ, ◌^◌, ◌<◌};
ghost use Rattle.bay_card_parts.specs.CardParts.{card_of};
ghost use Rattle.bay_migration.specs.MigrationWords.{MigrationAnswered};

use card::Card;

// The counts of the card do not matter: the contract holds of every card with the lent masks.
#[unsafe(no_mangle)]
pub extern "C" fn bay_migrate(
    old_table: &[u8],
    new_table: &[u8],
    map: &[u8],
    card_held: &mut u64,
    card_unread: &mut u64,
    answer: &mut [u64; 2],
) -> u64
    ensures { (reports taken planned : ℕ) → reports < 2 ^ 16
        → MigrationAnswered old_table.now new_table.now map.now
        (card_of card_held.old card_unread.old reports taken planned)
        (card_of card_held.new card_unread.new reports taken planned) answer.new result }
{
    let mut reports: u16 = 0;
    let mut taken: u32 = 0;
    let mut planned: u32 = 0;
    let before = Card {
        held: *card_held,
        unread: *card_unread,
        reports,
        taken,
        planned,
    };
    let migrated = card_migration::migrated(before, old_table, new_table, map);
    bay_card_parts::store(
        migrated,
        card_held,
        card_unread,
        &mut reports,
        &mut taken,
        &mut planned,
        answer,
    )
}
