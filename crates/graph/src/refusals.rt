// Why a call is refused: the documents' refusals, with their numbers.
ghost use Rattle.std.specs.Prelude.{◌≡◌, None, Some, cond, OnOk, true};
ghost use Rattle.graph.specs.Refusals.{number, fault_of};

// The order of the numbers is not that in which a call tests: each call's own definition says which comes first.
#[derive(Clone, Copy, Debug, PartialEq, Eq)]
pub enum Refusal {
    // a graph as bytes
    TooShort = 1,
    VertexCount = 2,
    HeaderPadding = 3,
    RecordCount = 4,
    NoSuchRecord = 5,
    RecordAgain = 6,
    Ends = 7,
    MarkOrPadding = 8,
    Cost = 9,
    PairAgain = 10,
    // what any call takes
    Length = 11,
    Multiplier = 12,
    Ceiling = 13,
    Settings = 14,
    Graph = 15,
    // a search and its record
    NotOpen = 20,
    AlreadyOpen = 21,
    NodesWait = 22,
    NoTour = 23,
    Record = 24,
    // document 02
    NoSuchEdge = 30,
    NotFree = 31,
    Denominator = 32,
    Name = 33,
    NothingSaved = 34,
    Ashore = 35,
    Tour = 36,
    StudentOrSpread = 37,
    Window = 38,
    LogEntry = 39,
    NoNodes = 40,
    Full = 41,
    Place = 42,
}

impl Refusal {
    // This refusal, unless what is asked fits.
    // Ruled out: a refusal of what fits; none of what does not, or another.
    pub fn unless(self, fits: bool) -> Result<(), Refusal>
        ensures fault { fault_of result ≡ cond fits 0 (number self) }
        ensures fits { OnOk result (fits ≡ true) }
    {
        if fits { Ok(()) } else { Err(self) }
    }

    // This refusal, of this place.
    // Ruled out: another refusal; the place after it.
    pub fn at(self, place: u64) -> Refused
        ensures { result ≡ record { refusal = self; place = Some place } }
    {
        Refused {
            refusal: self,
            place: Some(place),
        }
    }
}

// The documents' number. Ruled out: another refusal's; one counted from 0.
impl From<Refusal> for u32 {
    ghost from_gives = { λ refusal n. n ≡ number refusal };

    fn from(refusal: Refusal) -> u32 {
        refusal as u32
    }
}

// A refusal with the place that it is about, if there is one: a record of a file or an entry of a log, from 1.
#[derive(Clone, Copy, Debug, PartialEq, Eq)]
pub struct Refused {
    pub refusal: Refusal,
    pub place: Option<u64>,
}

// Without a place. Ruled out: another refusal; a place that the refusal is not about.
impl From<Refusal> for Refused {
    ghost from_gives = { λ refusal refused. refused ≡ record { refusal = refusal; place = None } };

    fn from(refusal: Refusal) -> Refused {
        Refused {
            refusal,
            place: None,
        }
    }
}
