// Why a call is refused: the description's list of refusals.
ghost use Rattle.std.specs.Prelude.{◌≡◌, ◌≤◌, [], ◌∷◌};
ghost use Rattle.basics.specs.Refusal.{number_of, refuse, met};

use std::error::Error;
use std::fmt;

// In the order in which they are tried, each by its number in the list.
#[derive(Clone, Copy, Debug, PartialEq, Eq, Hash)]
pub enum Refusal {
    OutOfRange = 1,
    NotInForm = 2,
    AreaTooShort = 3,
    NoSuchPanel = 4,
    PanelDown = 5,
    NotTheWriter = 6,
    Unfinished = 7,
    UsedUp = 8,
    NothingInFlight = 9,
    TooManyDown = 10,
    StrayWrite = 11,
    StrayProceed = 12,
    LineFull = 13,
    ChannelFull = 14,
    UnknownKind = 15,
    CutShort = 16,
    SetUpMisplaced = 17,
}

impl Refusal {
    pub fn number(self) -> u8
        ensures number { result ≡ number_of self }
        ensures most { result ≤ 17 }
    {
        self as u8
    }

    // One trial: this refusal where the test comes out true.
    pub fn when(self, given: bool) -> Result<(), Refusal>
        ensures { result ≡ met (refuse self given ∷ []) }
    {
        if given { Err(self) } else { Ok(()) }
    }
}

impl From<Refusal> for u8 {
    ghost from_gives = { λ (refusal : _) (number : _). number ≡ number_of refusal };

    fn from(refusal: Refusal) -> u8 {
        refusal.number()
    }
}

impl fmt::Display for Refusal {
    fn fmt<W: fmt::Write>(&self, f: &mut fmt::Formatter<W>) -> fmt::Result {
        f.write_str(match self {
            Refusal::OutOfRange => "n, t or writer is out of range",
            Refusal::NotInForm => "the tables are not in form",
            Refusal::AreaTooShort => "the lent area is too short",
            Refusal::NoSuchPanel => "there is no such panel, or no such pair of panels",
            Refusal::PanelDown => "the panel is down",
            Refusal::NotTheWriter => "the panel is not the writer",
            Refusal::Unfinished => "the panel has an unfinished operation",
            Refusal::UsedUp => "the numbers of the run are used up",
            Refusal::NothingInFlight => "no such message is in flight",
            Refusal::TooManyDown => "as many panels as may be are down already",
            Refusal::StrayWrite => "a WRITE that the panel cannot take or hold",
            Refusal::StrayProceed => "a PROCEED that answers no read",
            Refusal::LineFull => "the line of waiting READs is full",
            Refusal::ChannelFull => "a channel has no room for a message sent",
            Refusal::UnknownKind => "an unknown kind, or a value where none may stand",
            Refusal::CutShort => "the bytes are cut short",
            Refusal::SetUpMisplaced => "a set-up stands first, and only there",
        })
    }
}

impl Error for Refusal {}
