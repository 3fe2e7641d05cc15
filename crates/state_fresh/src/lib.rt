// The fresh state of a table.
#![tactic(auto)]

ghost use Rattle.std.specs.Prelude.{◌≡◌, length, replicate};
ghost use Rattle.base_words.specs.Iter.{iter};
ghost use Rattle.base_table.specs.Table.{pool_count};
ghost use Rattle.state_fits.specs.Fresh.{start_edge, pool_begun, fresh};

use base_state::places::{FIRST_INSTANCE, POOL_INSTANCES, STATE_WORDS, VERSION};
use base_table::places::ENTRIES;
use base_table::{edge_at, element_at, pool_count};
use base_words::{Word, clear, less_one, put};
use state_fits::pools::{has_start, start_place};

#[tactic(auto, unfolding(state_fits::specs::Fresh::start_edge))]
fn first_edge(t: &[Word], p: Word) -> Word
    ensures { result ≡ start_edge t.now p }
{
    edge_at(element_at(t, p, start_place(t, p)), ENTRIES as Word, 0)
}

fn begin_pool(t: &[Word], p: Word, z: &mut [Word])
    ensures { z.new ≡ pool_begun t.now p z.old }
{
    if !has_start(t, p) {
        return;
    }
    let place = FIRST_INSTANCE
        + POOL_INSTANCES * (p as usize)
        + (less_one(first_edge(t, p)) as usize);
    put(z, p as usize, 1);
    put(z, place, 1);
}

fn begin_pools(t: &[Word], z: &mut [Word])
    ensures { z.new ≡ iter (pool_begun t.now) z.old (pool_count t.now) }
{
    for p in 0..pool_count(t) {
        begin_pool(t, p, z);
    }
}

// Makes the state fresh for version v, whatever it was.
pub fn begin(t: &[Word], v: Word, z: &mut [Word; STATE_WORDS])
    ensures { z.new ≡ fresh t.now v }
{
    clear(z);
    begin_pools(t, z);
    put(z, VERSION, v);
}
