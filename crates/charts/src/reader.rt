// Reading 'the chart as bytes', with refusals 1 to 10 in document 01's order.
ghost use Rattle.std.specs.Prelude.{◌≡◌, ◌+◌, ◌<◌, ◌≤◌, IfOk, length};
ghost use Rattle.graph.specs.Limits.{max_edges};
ghost use Rattle.graph.specs.Refusals.{fault_of};
ghost use Rattle.graph.specs.Valid.{pair_met};
ghost use Rattle.charts.specs.Chart.{
  u16_at,
  start_of,
  header_fault,
  record_fault,
  appended,
  chain,
  read_meaning,
  reading,
};
ghost use Rattle.charts.specs.Records.{record_at, body_of};

use crate::{HEADER_SIZE, MAX_RECORDS, RECORD_SIZE};
use graph::{EXCLUDED, Graph, MAX_VERTICES, MIN_VERTICES, Refusal, Refused, cost_ok, ends_ok};

#[tactic(auto, unfolding(crate::specs::Chart::u16_at))]
fn u16_at(s: &[u8], i: usize) -> u16
    requires { i + 1 < length s.now }
    ensures { result ≡ u16_at s.now i }
{
    u16::from_le_bytes([s[i], s[i + 1]])
}

// Refusals 1 to 4.
#[tactic(auto, unfolding(crate::specs::Chart::header_fault))]
fn header_fault(s: &[u8]) -> Result<(), Refusal>
    ensures { fault_of result ≡ header_fault s.now }
{
    Refusal::TooShort.unless(s.len() >= HEADER_SIZE)?;
    let n = usize::from(s[0]);
    Refusal::VertexCount.unless((MIN_VERTICES..=MAX_VERTICES).contains(&n))?;
    Refusal::HeaderPadding.unless(s[1] == 0 && s[6] == 0 && s[7] == 0)?;
    let r = usize::from(u16_at(s, 4));
    Refusal::RecordCount.unless(r <= MAX_RECORDS && s.len() == HEADER_SIZE + RECORD_SIZE * r)
}

// A record of a file: an edge, the record after it, and the bytes that are to be zero.
#[derive(Clone, Copy)]
struct Record {
    a: u8,
    b: u8,
    mark: u8,
    cost: i32,
    next: u16,
    padding: [u8; 3],
}

impl Record {
    // The record that starts at p.
    #[tactic(auto, using(crate::specs::TwosComplement::signed_word), unfolding(crate::specs::Records::record_at, crate::specs::Chart::cost_at, crate::specs::Chart::u32_at, crate::specs::Chart::u16_at))]
    fn at(s: &[u8], p: usize) -> Record
        requires { p + 11 < length s.now }
        ensures { result ≡ record_at s.now p }
    {
        Record {
            a: s[p],
            b: s[p + 1],
            mark: s[p + 2],
            cost: i32::from_le_bytes([s[p + 4], s[p + 5], s[p + 6], s[p + 7]]),
            next: u16_at(s, p + 8),
            padding: [s[p + 3], s[p + 10], s[p + 11]],
        }
    }

    // Refusals 7 to 9.
    #[tactic(auto, unfolding(crate::specs::Records::body_of))]
    fn fault(&self, n: usize) -> Result<(), Refusal>
        ensures { fault_of result ≡ body_of self.now n }
    {
        Refusal::Ends.unless(ends_ok(n, self.a, self.b))?;
        Refusal::MarkOrPadding.unless(self.mark <= EXCLUDED && self.padding == [0; 3])?;
        Refusal::Cost.unless(cost_ok(self.cost))
    }
}

// Is the pair x, y among the edges? That these are few is asked here and of `checked`, and told by no type: `append` asks for one fewer all the same.
fn pair_met(g: &Graph, x: u8, y: u8) -> bool
    requires { g.now.m ≤ max_edges }
    ensures { result ≡ pair_met g.now.a g.now.b g.now.m x y }
{
    let m = usize::from(g.m);
    g.a[..m]
        .iter()
        .zip(&g.b[..m])
        .any(|(a, b)| *a == x && *b == y)
}

// Record k, or which of refusals 5 to 10 it meets.
#[tactic(auto, using(crate::specs::NoFault::header_ok, crate::specs::Records::body_is), unfolding(crate::specs::Chart::record_fault, crate::specs::Chart::start_of, crate::specs::Records::record_at))]
fn checked(s: &[u8], met: &[bool; MAX_RECORDS], g: &Graph, k: usize) -> Result<Record, Refusal>
    requires { (header_fault s.now ≡ 0) × (0 < k) × (g.now.m ≤ max_edges) }
    ensures fault { fault_of result ≡ record_fault s.now met.now g.now k }
    ensures read { IfOk result (λ r. r ≡ record_at s.now (start_of k)) }
{
    Refusal::NoSuchRecord.unless(k <= usize::from(u16_at(s, 4)))?;
    Refusal::RecordAgain.unless(!met[k - 1])?;
    let record = Record::at(s, HEADER_SIZE + RECORD_SIZE * (k - 1));
    record.fault(usize::from(g.n))?;
    Refusal::PairAgain.unless(!pair_met(g, record.a, record.b))?;
    Ok(record)
}

// One edge more, a record's.
#[tactic(auto, unfolding(crate::specs::Chart::appended))]
fn append(g: &mut Graph, found: &Record)
    requires { g.old.m < max_edges }
    ensures { let r = found.now in g.new ≡ appended g.old r.a r.b r.cost r.mark }
{
    let m = usize::from(g.m);
    g.a[m] = found.a;
    g.b[m] = found.b;
    g.mark[m] = found.mark;
    g.cost[m] = found.cost;
    g.m += 1;
}

// The records along the chain, of a file whose header has no fault.
#[tactic(auto, using(crate::specs::ReadLoop::turns), unfolding(crate::specs::Chart::start_of, crate::specs::Chart::next_of, crate::specs::Chart::read_meaning))]
fn follow(s: &[u8]) -> Result<Graph, Refused>
    requires { header_fault s.now ≡ 0 }
    ensures { read_meaning result ≡ chain s.now }
{
    let mut met = [false; MAX_RECORDS];
    let mut g = Graph::edgeless(s[0]);
    let mut k = usize::from(u16_at(s, 2));
    // no `for`: each record names the next
    while k != 0 {
        let found = checked(s, &met, &g, k).map_err(|refusal| refusal.at(k as u64))?;
        met[k - 1] = true;
        append(&mut g, &found);
        k = usize::from(found.next);
    }
    Ok(g)
}

// The graph of a file, or the first refusal of 1 to 10 that applies, with its place.
// Ruled out: a chain that meets a record again read as a graph; a graph given with a byte left past its edges.
#[tactic(auto, using(graph::specs::Refusals::positive), unfolding(crate::specs::Chart::reading, crate::specs::Chart::read_meaning))]
pub fn read(bytes: &[u8]) -> Result<Graph, Refused>
    ensures { read_meaning result ≡ reading bytes.now }
{
    header_fault(bytes)?;
    follow(bytes)
}
