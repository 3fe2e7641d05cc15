// The levels of the listing: each goes through the one below it in order, and hands on what is left of k.
ghost use Rattle.std.specs.Prelude.{◌≡◌};
ghost use Rattle.base_state.specs.Instances.{instances_of, queues_of};
ghost use Rattle.base_words.specs.Each.{joined};
ghost use Rattle.base_kinds.specs.Moves.{phases};
ghost use Rattle.step_list.specs.Listing.{by_branch};
ghost use Rattle.step_names.specs.Parts.{scan, accepted_on};
ghost use Rattle.step_list.specs.Scanned.{scan_phase, scan_instance, scan_made, scan_pool, scanned};

use super::parts::move_at;
use super::stirring::{is_still, stirs_at};
use base_kinds::moves::ON;
use base_state::made_count;
use base_state::places::STATE_WORDS;
use base_table::places::TABLE_WORDS;
use base_table::{element_at, element_count, message_name, pool_count};
use base_words::Word;
use step_names::{Scan, instances_in, name_at, passed, scan_name, scan_queue};
use step_tokens::branch_count;

// Phases are 0 to 3.
const PHASES: Word = 4;

// The queue places of branch b, or the one step without values.
fn scan_branch(
    t: &[Word; TABLE_WORDS],
    z: &[Word; STATE_WORDS],
    p: Word,
    i: Word,
    e: Word,
    f: Word,
    b: Word,
    k: usize,
) -> Scan
    ensures { result ≡ scan (accepted_on t.now z.now (by_branch t.now (queues_of z.now) p i e f b)) k }
{
    let m = move_at(t, p, e, f);
    let n = name_at(t, p, i, e, f, b);
    if m.receives == ON {
        let name = message_name(element_at(t, p, e), b);
        return scan_queue(t, z, n, name, k);
    }
    scan_name(t, z, n, k)
}

// The branches of phase f, of which there are none where it has no move.
fn scan_phase(
    t: &[Word; TABLE_WORDS],
    z: &[Word; STATE_WORDS],
    p: Word,
    i: Word,
    e: Word,
    f: Word,
    k: usize,
) -> Scan
    ensures { result ≡ scan (scan_phase t.now (instances_of z.now) (queues_of z.now) p i e f) k }
{
    let m = move_at(t, p, e, f);
    if m.kind == 0 {
        return passed(k);
    }
    let count = branch_count(element_at(t, p, e), m);
    let mut left = k;
    for b in 0..count {
        let r = scan_branch(t, z, p, i, e, f, b, left);
        if r.found {
            return r;
        }
        left = r.left;
    }
    passed(left)
}

// The phases of element e.
fn scan_phases(
    t: &[Word; TABLE_WORDS],
    z: &[Word; STATE_WORDS],
    p: Word,
    i: Word,
    e: Word,
    k: usize,
) -> Scan
    ensures { result ≡ scan (joined (scan_phase t.now (instances_of z.now) (queues_of z.now) p i e) phases) k }
{
    let mut left = k;
    for f in 0..PHASES {
        let r = scan_phase(t, z, p, i, e, f, left);
        if r.found {
            return r;
        }
        left = r.left;
    }
    passed(left)
}

// The elements in instance i; one that cannot move is passed over.
fn scan_instance(
    t: &[Word; TABLE_WORDS],
    z: &[Word; STATE_WORDS],
    p: Word,
    i: Word,
    k: usize,
) -> Scan
    ensures { result ≡ scan (scan_instance t.now (instances_of z.now) (queues_of z.now) p i) k }
{
    let count = element_count(t, p);
    let mut left = k;
    for e in 0..count {
        if stirs_at(t, z, p, i, e) {
            let r = scan_phases(t, z, p, i, e, left);
            if r.found {
                return r;
            }
            left = r.left;
        }
    }
    passed(left)
}

// Instance i, which is passed over where nothing can move in it.
fn scan_made(t: &[Word; TABLE_WORDS], z: &[Word; STATE_WORDS], p: Word, i: Word, k: usize) -> Scan
    ensures { result ≡ scan (scan_made t.now (instances_of z.now) (queues_of z.now) p i) k }
{
    if is_still(z, p, i) {
        return passed(k);
    }
    scan_instance(t, z, p, i, k)
}

// The instances of pool p: those that are made, and the unmade one behind them.
fn scan_pool(t: &[Word; TABLE_WORDS], z: &[Word; STATE_WORDS], p: Word, k: usize) -> Scan
    ensures { result ≡ scan (scan_pool t.now (instances_of z.now) (queues_of z.now) p) k }
{
    let made = made_count(instances_in(z), p);
    let mut left = k;
    for i in 0..made {
        let r = scan_made(t, z, p, i, left);
        if r.found {
            return r;
        }
        left = r.left;
    }
    scan_made(t, z, p, made, left)
}

// The pools, in text order.
pub fn scan_pools(t: &[Word; TABLE_WORDS], z: &[Word; STATE_WORDS], k: usize) -> Scan
    ensures { result ≡ scan (scanned t.now (instances_of z.now) (queues_of z.now)) k }
{
    let count = pool_count(t);
    let mut left = k;
    for p in 0..count {
        let r = scan_pool(t, z, p, left);
        if r.found {
            return r;
        }
        left = r.left;
    }
    passed(left)
}
