// What both programs read: a ceiling and then a chart.
ghost use Rattle.graph.specs.Valid.{Valid};

use graph::{Graph, MAX_VERTICES, Refusal, Refused};

// The bytes of the ceiling.
const CEILING_SIZE: usize = 8;

// The multipliers of both programs.
static NO_MULTIPLIERS: [i32; MAX_VERTICES] = [0; MAX_VERTICES];

// Their list of the vertices ashore.
static ALL_AFLOAT: [u8; MAX_VERTICES] = [0; MAX_VERTICES];

// What a program reads: one byte more than the longest input.
pub const INPUT_SIZE: usize = CEILING_SIZE + charts::MAX_SIZE + 1;

// What was read: its graph is valid, so no function that is lent it has to require that.
#[derive(Drop)]
pub struct Input {
    pub(crate) ceiling: i64,
    pub(crate) graph: Graph,
    ghost valid: { Valid graph },
}

impl Input {
    ghost use Rattle.std.specs.Prelude.{◌≡◌, ℤ, List, ℕ};
    ghost use Rattle.graph.specs.declared.Graph.{Graph};
    ghost use Rattle.reports.specs.Input.{printed};
    ghost use Rattle.reports.specs.Reading.{printed_of};
    ghost use Rattle.reports.specs.Rulings.{zero_multipliers, all_afloat};

    // Ruled out: a refusal of the ceiling beside a fault of the chart.
    pub(crate) fn read(bytes: &[u8]) -> Result<Input, Refused>
        ensures { (text : ℤ → Graph → List ℕ) → printed_of text result ≡ printed text bytes.now }
    {
        let (ceiling, chart) = bytes
            .split_first_chunk::<CEILING_SIZE>()
            .ok_or(Refusal::TooShort)?;
        let graph = charts::read(chart)?;
        Ok(Input {
            ceiling: i64::from_le_bytes(*ceiling),
            graph,
        })
    }

    // A multiplier of zero for each vertex.
    pub(crate) fn multipliers(&self) -> &'static [i32]
        ensures { result.now ≡ zero_multipliers self.now.graph }
    {
        &NO_MULTIPLIERS[..usize::from(self.graph.n)]
    }

    // None ashore: a zero for each vertex.
    pub(crate) fn ashore(&self) -> &'static [u8]
        ensures { result.now ≡ all_afloat self.now.graph }
    {
        &ALL_AFLOAT[..usize::from(self.graph.n)]
    }
}
