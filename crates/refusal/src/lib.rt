// Why a call is refused, and where: document 01, "Stops, in checking order", and document 02's stops as they land. Every entry
// point of the planner refuses with one of these reasons; its number is the papers', its place is what they fix for it.
#![tactic(auto)]

ghost use Rattle.std.specs.Prelude.{◌≡◌};
ghost use Rattle.refusal.specs.Numbers.{number_of};

// Each reason has its number for its discriminant.
#[derive(Clone, Copy, Debug, PartialEq, Eq)]
pub enum Reason {
    // The table ends where a command or operand is due.
    TableCut = 1,
    // A table command is unknown or not allowed there.
    CommandNotAllowed = 2,
    // F is outside 1 to 64.
    FactCountOutOfRange = 3,
    // A 129th JOB stands in the table.
    TooManyJobs = 4,
    // A table mask has a bit at or above F.
    TableMaskOutOfRange = 5,
    // A job's adds share a fact with its deletes or its needs.
    EffectsOverlap = 6,
    // Bytes follow the table's END.
    BytesAfterTable = 7,
    // A reading, or the card's masks, share a fact or have a bit at or above F.
    BadReading = 8,
    // A start for planning has an unread fact.
    StartUnread = 9,
    // A condition to be stored would exceed the list's capacity.
    ListFull = 10,
    // Every entry is expanded and none is part of the start.
    NoWay = 11,
    // The lent tree is shorter than the list's tree.
    TreeTooShort = 12,
    // A tree is overlong, cut or otherwise malformed.
    BadTree = 13,
    // A tree node is deeper than 16.
    TreeTooDeep = 14,
    // A tree mask has a bit at or above F, or a job number is not below the job count.
    TreeOperandOutOfRange = 15,
    // A report names no job of the table.
    NoSuchJob = 16,
    // A need of the reported job is unread or absent.
    NeedNotHeld = 17,
    // The card has 65,535 reports, or a sum above its limit for that count.
    CardExhausted = 18,
    // A job is listed with more than 5,400 seconds.
    JobTooLong = 19,
    // A sound tree that no plan of the table writes.
    OtherOrigin = 20,
    // A job needs a fact that it needs absent.
    NeedsContradict = 22,
    // The licences are not as many as the jobs, or one is none.
    BadLicences = 24,
    // Distances are asked for under more than 15 facts.
    TooManyFacts = 25,
    // The row has not one number for each state.
    BadRowLength = 26,
    // The map is not as long as the old facts are many, or sends one outside the new table, or two to one.
    BadMap = 27,
}

#[derive(Clone, Copy, Debug, PartialEq, Eq)]
pub struct Refusal {
    pub reason: Reason,
    pub place: usize,
}

impl Reason {
    // A refusal for this reason, at a place.
    pub fn at(self, place: usize) -> Refusal
        ensures { result ≡ record { reason = self; place = place } }
    {
        Refusal {
            reason: self,
            place,
        }
    }
}

// A reason's number.
impl From<Reason> for u8 {
    ghost from_gives = { λ reason n. n ≡ number_of reason };

    fn from(reason: Reason) -> u8 {
        reason as u8
    }
}
