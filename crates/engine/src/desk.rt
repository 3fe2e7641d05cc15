// The desk's records beside a whole state: what is counted are its instances.
ghost use Rattle.std.specs.Prelude.{◌≡◌, ◌≤◌, length};
ghost use Rattle.base_table.specs.Table.{pool_count, pool_of};
ghost use Rattle.base_state.specs.Places.{instances_words};
ghost use Rattle.base_state.specs.Instances.{instances_of};
ghost use Rattle.state_figures.specs.Figures.{counted, followed, desk_number, records_left, Figured, figured};

use base_state::places::INSTANCES_WORDS;
use base_words::Word;
use state_figures::{RECORD_WORDS, desk_number, figure, follow, recount};

pub fn number_in(rs: &[[Word; RECORD_WORDS]], t: &[Word], z: &[Word], number: Word) -> Word
    requires { instances_words ≤ length z.now }
    ensures { (result ≡ desk_number number rs.now t.now (instances_of z.now)) × (result ≡ 0 → rs.now ≡ counted t.now (instances_of z.now)) }
{
    desk_number(rs, t, &z[..INSTANCES_WORDS], number)
}

pub fn follow_in(
    rs: &mut [[Word; RECORD_WORDS]],
    t: &[Word],
    z: &[Word],
    pool: Word,
    i: Word,
    number: Word,
)
    requires { instances_words ≤ length z.now }
    ensures { rs.new ≡ followed number rs.old (instances_of z.now) (pool_of t.now pool) i }
{
    follow(rs, t, &z[..INSTANCES_WORDS], pool, i, number);
}

pub fn recount_in(rs: &mut [[Word; RECORD_WORDS]], t: &[Word], z: &[Word], number: Word)
    requires { (instances_words ≤ length z.now) × (number ≡ 0 → length rs.old ≡ pool_count t.now) }
    ensures { rs.new ≡ records_left number rs.old t.now (instances_of z.now) }
{
    recount(rs, t, &z[..INSTANCES_WORDS], number);
}

pub fn figure_in(rs: &mut [[Word; RECORD_WORDS]], t: &[Word], z: &[Word], number: Word) -> Word
    requires { instances_words ≤ length z.now }
    ensures { record { number = result; records = rs.new } ≡ figured number rs.old t.now (instances_of z.now) }
{
    figure(rs, t, &z[..INSTANCES_WORDS], number)
}
