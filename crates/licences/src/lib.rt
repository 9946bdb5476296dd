// The licences of two fitters at one vehicle: which of them a job belongs to, and stop 24 (document 02, W12).
#![tactic(auto)]

ghost use Rattle.std.specs.Prelude.{◌≡◌, eqb, get_or};
ghost use Rattle.licences.specs.Licences.{FIRST, is_licence, checked_licences, owned_by};
ghost use Rattle.refusal.specs.Checked.{answer_as};

use refusal::{Reason, Refusal};

#[derive(Clone, Copy)]
pub enum Fitter {
    First,
    Second,
}

// A job's licence: for the first fitter, for the second, for both.
const FIRST: u8 = 1;

const SECOND: u8 = 2;

const BOTH: u8 = 3;

fn is_licence(licence: u8) -> bool
    ensures { result ≡ is_licence licence }
{
    if licence < FIRST {
        return false;
    }
    licence <= BOTH
}

// The licences of a table with so many jobs: any row.
pub fn check_licences(jobs: usize, licences: &[u8]) -> Result<(), Refusal>
    ensures { answer_as licences.now result ≡ checked_licences jobs licences.now }
{
    if licences.len() != jobs {
        return Err(Reason::BadLicences.at(0));
    }
    for i in 0..jobs {
        if !is_licence(licences[i]) {
            return Err(Reason::BadLicences.at(i));
        }
    }
    Ok(())
}

// Past the end of the row a job's licence is the first fitter's.
fn has_licence(licences: &[u8], job: u8, licence: u8) -> bool
    ensures { result ≡ eqb (get_or licences.now job FIRST) licence }
{
    let i = job as usize;
    if i >= licences.len() {
        return FIRST == licence;
    }
    licences[i] == licence
}

// A fitter, with the licences that tell which jobs are his. Without licences all are the first fitter's.
#[derive(Clone, Copy)]
pub struct Owner<'a> {
    pub licences: &'a [u8],
    pub fitter: Fitter,
}

impl Owner<'_> {
    // Does a job belong to the fitter?
    pub fn owns(self, job: u8) -> bool
        ensures { result ≡ owned_by self.entry job }
    {
        match self.fitter {
            Fitter::First => !has_licence(self.licences, job, SECOND),
            Fitter::Second => has_licence(self.licences, job, SECOND),
        }
    }
}
