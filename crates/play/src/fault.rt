// Why a level is not played to its end.
ghost use Rattle.std.specs.Prelude.{◌≡◌, length, slice_index};
ghost use Rattle.index.specs.Outcomes.{figures_of};
ghost use Rattle.printing.specs.Outputs.{put_outcome, put_leaves};
ghost use Rattle.play.specs.declared.fault.PlayFault.TheVariants.{Reading, Output};
ghost use Rattle.play.specs.Faults.{figures_told, fault_line};

use index::refusal::Refusal;
use lines::fault::ReadFault;
use player::calls::OutputFull;
use printing::put_line;

#[derive(Clone, Copy, Debug, PartialEq)]
pub enum PlayFault {
    // The file is no level.
    Reading(ReadFault),
    // The next line exceeds the output.
    Output(OutputFull),
}

// Both by hand, since the contract of a play says which fault `?` makes.
impl From<ReadFault> for PlayFault {
    ghost from_gives = { λ e r. r ≡ Reading e };

    fn from(fault: ReadFault) -> PlayFault {
        PlayFault::Reading(fault)
    }
}

impl From<OutputFull> for PlayFault {
    ghost from_gives = { λ e r. r ≡ Output e };

    fn from(full: OutputFull) -> PlayFault {
        PlayFault::Output(full)
    }
}

// The figure that belongs to a refusal. Every fault line prints two figures, and 0 for one that is lacking.
fn figure(refusal: &Refusal) -> usize
    ensures { result ≡ slice_index (figures_of refusal.now) 0 }
{
    match refusal {
        Refusal::Setting(value) => *value as usize,
        Refusal::NotStanding(number) => usize::from(*number),
        Refusal::ShortList(places) => usize::from(*places),
        Refusal::HitCount | Refusal::Full | Refusal::NumbersUsedUp | Refusal::NotJoined => 0,
    }
}

impl PlayFault {
    // The number of the fault and its two figures: 0 is what the line prints for one that is lacking.
    pub fn figures(&self) -> (usize, usize, usize)
        ensures { result ≡ figures_told self.now }
    {
        match self {
            PlayFault::Reading(ReadFault::TooLong) => (10, 0, 0),
            PlayFault::Reading(ReadFault::Form { line, word }) => (8, *line, *word),
            PlayFault::Reading(ReadFault::Line { line }) => (9, *line, 0),
            PlayFault::Reading(ReadFault::Setting { line, refusal }) => {
                (usize::from(refusal.number()), *line, figure(refusal))
            }
            PlayFault::Output(OutputFull(lines)) => (11, *lines, 0),
        }
    }
}

// Writes the line that tells of a fault, and returns where it ends.
pub fn put_fault(fault: &PlayFault, out: &mut [u8]) -> Option<usize>
    ensures answer { result ≡ put_outcome (length out.old) 0 (fault_line fault.now) }
    ensures leaves { out.new ≡ put_leaves out.old 0 (fault_line fault.now) }
{
    let (number, first, second) = fault.figures();
    put_line(out, 0, b"fault", &[number, first, second])
}
