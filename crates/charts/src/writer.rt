// Writing 'the chart as bytes': edge k in record k.
ghost use Rattle.std.specs.Prelude.{◌≡◌, ◌<◌, length};
ghost use Rattle.graph.specs.Limits.{max_edges};
ghost use Rattle.graph.specs.Refusals.{fault_of};
ghost use Rattle.charts.specs.Answers.{write_meaning};
ghost use Rattle.charts.specs.Chart.{
  after,
  header_bytes,
  record_bytes,
  file_bytes,
  write_fault,
  write_outcome,
  write_leaves,
};

use crate::{HEADER_SIZE, RECORD_SIZE};
use graph::{Graph, Refusal};

// The record after record k, as the file numbers them: 0, the file's own number, where there is none.
#[tactic(auto, unfolding(crate::specs::Chart::after))]
fn after(k: u8, m: u8) -> u8
    ensures { result ≡ after k m }
{
    if k < m { k + 1 } else { 0 }
}

#[tactic(auto, unfolding(crate::specs::Chart::header_bytes))]
fn header(g: &Graph) -> [u8; HEADER_SIZE]
    ensures { result ≡ header_bytes g.now.n g.now.m }
{
    let head = u16::from(after(0, g.m)).to_le_bytes();
    let count = u16::from(g.m).to_le_bytes();
    [g.n, 0, head[0], head[1], count[0], count[1], 0, 0]
}

// Edge k + 1.
#[tactic(auto, using(crate::specs::TwosComplement::bits_word), unfolding(crate::specs::Chart::record_bytes))]
fn record(g: &Graph, k: u8) -> [u8; RECORD_SIZE]
    requires { k < max_edges }
    ensures { result ≡ record_bytes g.now k }
{
    let i = usize::from(k);
    let cost = g.cost[i].to_le_bytes();
    let next = u16::from(after(k + 1, g.m)).to_le_bytes();
    [
        g.a[i], g.b[i], g.mark[i], 0, cost[0], cost[1], cost[2], cost[3], next[0], next[1], 0, 0,
    ]
}

#[tactic(auto, using(crate::specs::NoFault::write_ok))]
fn put_all(g: &Graph, out: &mut [u8])
    requires { write_fault g.now (length out.old) ≡ 0 }
    ensures { out.new ≡ file_bytes g.now }
{
    out[..HEADER_SIZE].copy_from_slice(&header(g));
    // by places: of what is written through chunks_exact_mut or as_chunks_mut a proof knows nothing afterwards
    for k in 0..g.m {
        let p = HEADER_SIZE + RECORD_SIZE * usize::from(k);
        out[p..p + RECORD_SIZE].copy_from_slice(&record(g, k));
    }
}

// Refusals 15 and 11.
#[tactic(auto, unfolding(crate::specs::Chart::write_fault))]
fn write_fault(g: &Graph, len: usize) -> Result<(), Refusal>
    ensures { fault_of result ≡ write_fault g.now len }
{
    g.fault()?;
    Refusal::Length.unless(len == HEADER_SIZE + RECORD_SIZE * usize::from(g.m))
}

// The graph as bytes, in a list of just the right length; on a refusal the list stays as it was.
// Ruled out: a byte written beside a refusal; a last record whose next leads anywhere but to 0.
#[tactic(auto, using(graph::specs::Refusals::positive), unfolding(crate::specs::Chart::write_outcome, crate::specs::Chart::write_leaves, crate::specs::Answers::write_meaning))]
pub fn write(g: &Graph, out: &mut [u8]) -> Result<(), Refusal>
    ensures { (write_meaning result ≡ write_outcome g.now (length out.old))
        × (out.new ≡ write_leaves g.now out.old) }
{
    write_fault(g, out.len())?;
    put_all(g, out);
    Ok(())
}
