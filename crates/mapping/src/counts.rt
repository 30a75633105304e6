// How many processors hold an iteration, and how many messages there are between them.
ghost use Rattle.std.specs.Prelude.{◌≡◌, ℕ, ◌^◌, ◌<◌, ◌≤◌, eqb, length, get_or, take};
ghost use Rattle.integers.specs.Lists.{tab, count, firsts, total};
ghost use Rattle.nest.specs.Nest.{count_of, max_cube, max_iterations};
ghost use Rattle.nest.specs.Points.{points_of};
ghost use Rattle.mapping.specs.ByKeys.{messages_in};
ghost use Rattle.mapping.specs.Mapping.{is_message};

use nest::LoopNest;
use sources::{KeyedNest, Sources};

// How many processors there are at most.
const MAX_PROCESSORS: usize = 1 << LoopNest::MAX_CUBE;

// How many different processors the iterations are on.
pub fn processor_count(processors: &[u8]) -> usize
    requires { (k : ℕ) → k < length processors.now → get_or processors.now k 0 < 2 ^ max_cube }
    ensures { result ≡ length (firsts eqb processors.now) }
{
    let mut seen = [false; MAX_PROCESSORS];
    let mut number = 0;
    for processor in processors {
        let p = *processor as usize;
        if !seen[p] {
            seen[p] = true;
            number += 1;
        }
    }
    number
}

// How many messages there are to the iteration whose sources are asked for.
fn next_messages(sources: &mut Sources, processors: &[u8]) -> usize
    requires iteration { sources.old.iteration < length sources.old.keys.now }
    requires room { length sources.old.keys.now ≤ length processors.now }
    ensures value { result ≡ messages_in sources.old.keys.now sources.old.distances.now processors.now
        sources.old.iteration (length sources.old.distances.now) }
    ensures keys { sources.new.keys.now ≡ sources.old.keys.now }
    ensures distances { sources.new.distances.now ≡ sources.old.distances.now }
    ensures iteration { sources.new.iteration ≡ sources.old.iteration }
{
    let here = processors[sources.iteration];
    let mut number = 0;
    // Kept: a source is asked for by its dependence's number, so a loop over the distances is no
    // plainer: it would count them beside.
    for i in 0..sources.distances.len() {
        if let Some(j) = sources.source(i) {
            if processors[j] != here {
                number += 1;
            }
        }
    }
    number
}

// How many messages there are between the processors of the iterations of an accepted nest.
pub fn message_count(s: &KeyedNest, processors: &[u8]) -> usize
    requires { length (points_of s.now.nest.now.nest) ≤ length processors.now }
    ensures { let nest = s.now.nest.now.nest in
        result ≡ total
        (tab (λ k. count (is_message nest (take (length (points_of nest)) processors.now) k)
        (tab (λ i. i) (count_of nest))) (length (points_of nest))) }
{
    let distances = sources::distances_of(s.nest);
    let m = s.nest.count();
    let mut sources = Sources::new(s.keys, &distances[..m]);
    let mut number = 0;
    for _ in s.keys {
        number += next_messages(&mut sources, processors);
        sources.advance();
    }
    number
}
