ghost use Rattle.std.specs.Prelude.{◌≡◌};
ghost use Rattle.wire.specs.Wire.{row_of};
ghost use Rattle.wire.specs.Models.{refusal_model, place_model};

/// The part of the house at which a call stops.
#[derive(Clone, Copy, PartialEq, Eq, Debug)]
pub enum Place {
    Buffer,
    Terminal,
    SessionMap,
    Channel,
    Codec,
}

/// Why a call stopped. It passes up through every layer as it is; what the server
/// finds wrong with a readable request is no refusal but a status, which it replies.
#[derive(Clone, Copy, PartialEq, Eq, Debug)]
pub enum Refusal {
    ShortScratch,
    NoTerminal,
    NotStanding,
    LongBody,
    NoSlot,
    NoOpenCall,
    NoPart,
    NoWork,
    HighTarget,
    NoPlace,
    NoCount,
    FewTrays,
    NothingWaits,
    Unreadable { offset: usize },
    NoCall,
}

// Place, number and offset are the three columns of a refusal's row in the rules, so methods alike, and no `From`.
impl Refusal {
    pub fn place(self) -> Place
        ensures { place_model result ≡ (row_of (refusal_model self)).place }
    {
        match self {
            Refusal::ShortScratch => Place::Buffer,
            Refusal::HighTarget | Refusal::NoPlace | Refusal::NoCount | Refusal::FewTrays => {
                Place::SessionMap
            }
            Refusal::NothingWaits => Place::Channel,
            Refusal::Unreadable { offset: _ } => Place::Codec,
            _ => Place::Terminal,
        }
    }

    pub fn number(self) -> u32
        ensures { result ≡ (row_of (refusal_model self)).number }
    {
        match self {
            Refusal::ShortScratch => 1,
            Refusal::NoTerminal => 2,
            Refusal::NotStanding => 3,
            Refusal::LongBody => 4,
            Refusal::NoSlot => 5,
            Refusal::NoOpenCall => 6,
            Refusal::NoPart => 7,
            Refusal::NoWork => 8,
            Refusal::HighTarget => 9,
            Refusal::NoPlace => 10,
            Refusal::NoCount => 11,
            Refusal::FewTrays => 12,
            Refusal::NothingWaits => 13,
            Refusal::Unreadable { offset: _ } => 10036,
            Refusal::NoCall => 14,
        }
    }

    /// Where an unreadable message first went wrong; 0 for every other refusal.
    // No Option: the rules' column of offsets has the 0.
    pub fn offset(self) -> usize
        ensures { result ≡ (row_of (refusal_model self)).offset }
    {
        match self {
            Refusal::Unreadable { offset } => offset,
            _ => 0,
        }
    }
}
