// What a move finds in lent tables: the iteration that a processor takes, the sources that are
// there, the messages that can be delivered.
ghost use Rattle.std.specs.Prelude.{◌≡◌, true, false, [], ◌+◌, ◌^◌, ◌<◌, ◌≤◌, length, get_or, IfSome};
ghost use Rattle.nest.specs.Nest.{count_of, max_dependences};
ghost use Rattle.nest.specs.Sources.{source_rank};
ghost use Rattle.execution.specs.Rules.{every, better, least, step_in, waits, there};
ghost use Rattle.execution.specs.Run.{bit};
ghost use Rattle.execution.specs.Inner.{view_in, option_in, ready_from};

use crate::Delivery;
use nest::AcceptedNest;

// Whether bit i of a byte is 1.
fn bit_set(byte: u8, i: usize) -> bool
    requires { i < max_dependences }
    ensures { result ≡ bit i byte }
{
    byte & (1 << i) != 0
}

// A byte whose bit i is 0, with that bit 1.
pub fn with_bit(byte: u8, i: usize) -> u8
    requires { (i < max_dependences) × (bit i byte ≡ false) }
    ensures { result ≡ byte + 2 ^ i }
{
    byte | (1 << i)
}

// The better of the best so far and an iteration that waits: that iteration, if there is no best or
// its step is less.
fn better_of(steps: &[u32], best: Option<usize>, k: usize) -> Option<usize>
    requires best_in_bounds { IfSome best (λ j. j < length steps.now) }
    requires k_in_bounds { k < length steps.now }
    ensures { option_in result ≡ better (λ j. get_or steps.now j 0) k true (option_in best) }
{
    match best {
        None => Some(k),
        Some(j) => if steps[k] < steps[j] { Some(k) } else { best },
    }
}

// What a move looks at besides the steps: of each iteration its processor, whether it is done, and
// which of its messages are delivered.
#[derive(Clone, Copy)]
pub struct Seen<'a> {
    pub processors: &'a [u8],
    pub done: &'a [u8],
    pub delivered: &'a [u8],
    ghost lengths: { (length done.now ≡ length processors.now)
        × (length delivered.now ≡ length processors.now) },
}

impl Seen<'_> {
    // The iteration that processor p takes: the one that is not done, least in step, then in rank.
    pub fn next_iteration(&self, steps: &[u32], p: u8) -> Option<usize>
        requires { length self.now.processors.now ≤ length steps.now }
        ensures taken { option_in result ≡ least
            (waits (view_in steps.now self.now.processors.now self.now.done.now []) p)
            (step_in (view_in steps.now self.now.processors.now self.now.done.now []))
            (length self.now.processors.now) }
        ensures below { IfSome result (λ k. k < length self.now.processors.now) }
    {
        let mut best = None;
        // Kept: k is what is answered and what `steps` is asked for, so `done` is read by it too; a
        // `zip` in front of `enumerate` is no plainer.
        for (k, processor) in self.processors.iter().enumerate() {
            if *processor == p && self.done[k] == 0 {
                best = better_of(steps, best, k);
            }
        }
        best
    }

    // Whether the source of iteration k along dependence i is there for processor p: done if on p,
    // its message delivered otherwise; one that is no iteration always is.
    fn is_there(&self, source: Option<usize>, p: u8, k: usize, i: usize) -> bool
        requires source { IfSome source (λ j. j < length self.now.processors.now) }
        requires place { (k < length self.now.processors.now) × (i < max_dependences) }
        ensures { result ≡ there
            (view_in [] self.now.processors.now self.now.done.now self.now.delivered.now) p k i
            (option_in source) }
    {
        let Some(j) = source else {
            return true;
        };
        if self.processors[j] == p {
            return self.done[j] != 0;
        }
        bit_set(self.delivered[k], i)
    }

    // Whether all sources of iteration k are there for processor p.
    pub fn all_there(&self, s: &AcceptedNest, p: u8, k: usize) -> bool
        requires { (length self.now.processors.now ≡ s.now.iterations) × (k < s.now.iterations) }
        ensures { result ≡ every
            (λ i. there (view_in [] self.now.processors.now self.now.done.now self.now.delivered.now)
            p k i (source_rank s.now.nest k i)) (count_of s.now.nest) }
    {
        let point = s.point_of(k);
        // Kept: i is the number by which a source and its bit are asked for, so that `all` over the
        // same range would be no plainer.
        for i in 0..s.count() {
            if !self.is_there(s.source_at(point, i), p, k, i) {
                return false;
            }
        }
        true
    }

    // Whether a message, of which the source is known, can be delivered: it is one, its source is
    // done, and its bit is 0.
    pub fn is_ready(&self, source: Option<usize>, message: Delivery) -> bool
        requires { (message.rank < length self.now.processors.now)
            × (message.dependence < max_dependences) }
        ensures { result ≡ ready_from (option_in source) (length self.now.processors.now)
            self.now.processors.now self.now.done.now self.now.delivered.now
            message.rank message.dependence }
    {
        let Some(j) = source else {
            return false;
        };
        j < self.processors.len()
            && self.processors[j] != self.processors[message.rank]
            && self.done[j] != 0
            && !bit_set(self.delivered[message.rank], message.dependence)
    }
}
