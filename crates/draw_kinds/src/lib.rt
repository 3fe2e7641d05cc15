// Which of the kinds of document 01 a node of a drawing is: what stands round it, counted.
#![tactic(auto)]

ghost use Rattle.std.specs.Prelude.{◌≡◌, ◌+◌, ◌≤◌, eqb};
ghost use Rattle.draw_kinds.specs.Roles.{shape_of, Before, flows, defines, when, start_drawn, end_drawn, intermediate, activity, splits, joins, gateway, kind_by, caught_as, kind_drawn, kind_settled, roles, is_unsettled, are_settled, settled_up_to};
ghost use Rattle.draw_things.specs.Things.{sort, sequence_flow, message_event_definition, terminate_event_definition, intermediate_catch_event};
ghost use Rattle.base_words.specs.Pick.{if◌then◌or_else◌};
ghost use Rattle.base_words.specs.Sum.{one_if};

use base_words::Word;
use counting::{TARGET_IN, first_with};
use draw_links::is_node_at;
use draw_things::things::{
    END_EVENT, EVENT_BASED_GATEWAY, EXCLUSIVE_GATEWAY, INTERMEDIATE_CATCH_EVENT,
    INTERMEDIATE_THROW_EVENT, MESSAGE_EVENT_DEFINITION, Note, PARALLEL_GATEWAY, RECEIVE_TASK,
    SEND_TASK, SEQUENCE_FLOW, START_EVENT, TASK, TERMINATE_EVENT_DEFINITION, kind_of_thing,
    set_source, sort_of, source_of, target_of, within_of,
};

pub mod counting;
mod kinds;

// What is drawn round a node: flows in, flows out, message and terminate definitions.
#[derive(Clone, Copy)]
pub struct Shape {
    pub ins: Word,
    pub outs: Word,
    pub messages: Word,
    pub terminates: Word,
}

fn one_if(same: bool) -> Word
    ensures { (result ≡ one_if same) × (result ≤ 1) }
{
    if same { 1 } else { 0 }
}

fn with_flow(w: &[Note], j: Note, k: Note, d: Shape) -> Shape
    requires { Before w.now (j + 1) k d × (sort w.now j ≡ sequence_flow) }
    ensures { result ≡ shape_of w.now (j + 1) k }
{
    let into = one_if(target_of(w, j) == k);
    let out = one_if(source_of(w, j) == k);
    Shape {
        ins: d.ins + into,
        outs: d.outs + out,
        ..d
    }
}

fn with_message(w: &[Note], j: Note, k: Note, d: Shape) -> Shape
    requires { Before w.now (j + 1) k d × (sort w.now j ≡ message_event_definition) }
    ensures { result ≡ shape_of w.now (j + 1) k }
{
    let inside = one_if(within_of(w, j) == k);
    Shape {
        messages: d.messages + inside,
        ..d
    }
}

fn with_terminate(w: &[Note], j: Note, k: Note, d: Shape) -> Shape
    requires { Before w.now (j + 1) k d × (sort w.now j ≡ terminate_event_definition) }
    ensures { result ≡ shape_of w.now (j + 1) k }
{
    let inside = one_if(within_of(w, j) == k);
    Shape {
        terminates: d.terminates + inside,
        ..d
    }
}

// Thing j added to what those before it draw round node k.
fn with_thing(w: &[Note], j: Note, k: Note, d: Shape) -> Shape
    requires { Before w.now (j + 1) k d }
    ensures { result ≡ shape_of w.now (j + 1) k }
{
    let s = sort_of(w, j);
    if s == SEQUENCE_FLOW {
        return with_flow(w, j, k, d);
    }
    if s == MESSAGE_EVENT_DEFINITION {
        return with_message(w, j, k, d);
    }
    if s == TERMINATE_EVENT_DEFINITION {
        return with_terminate(w, j, k, d);
    }
    d
}

fn shape_of(w: &[Note], n: Note, k: Note) -> Shape
    ensures { result ≡ shape_of w.now n k }
{
    let mut d = Shape {
        ins: 0,
        outs: 0,
        messages: 0,
        terminates: 0,
    };
    for j in 0..n {
        d = with_thing(w, j, k, d);
    }
    d
}

#[tactic(auto, unfolding(crate::specs::Roles::flows))]
fn flows(i: Word, o: Word, d: Shape) -> bool
    ensures { result ≡ flows i o d }
{
    d.ins == i && d.outs == o
}

#[tactic(auto, unfolding(crate::specs::Roles::defines))]
fn defines(m: Word, e: Word, d: Shape) -> bool
    ensures { result ≡ defines m e d }
{
    d.messages == m && d.terminates == e
}

#[tactic(auto, using(base_words::proofs::PickLaws::picks), unfolding(crate::specs::Roles::when))]
fn when(right: bool, kind: Note) -> Note
    ensures { result ≡ when right kind }
{
    if right { kind } else { 0 }
}

#[tactic(auto, using(base_words::proofs::PickLaws::picks), unfolding(crate::specs::Roles::start_drawn, crate::specs::Roles::when))]
fn start_drawn(d: Shape) -> Note
    ensures { result ≡ start_drawn d }
{
    if !flows(0, 1, d) {
        return 0;
    }
    if defines(0, 0, d) {
        return kinds::START;
    }
    when(defines(1, 0, d), kinds::START_RCV)
}

#[tactic(auto, using(base_words::proofs::PickLaws::picks), unfolding(crate::specs::Roles::end_drawn, crate::specs::Roles::when))]
fn end_drawn(d: Shape) -> Note
    ensures { result ≡ end_drawn d }
{
    if !flows(1, 0, d) {
        return 0;
    }
    if defines(0, 0, d) {
        return kinds::END;
    }
    if defines(1, 0, d) {
        return kinds::END_SND;
    }
    when(defines(0, 1, d), kinds::TERMINATE)
}

#[tactic(auto, using(base_words::proofs::PickLaws::picks), unfolding(crate::specs::Roles::intermediate, crate::specs::Roles::when))]
fn intermediate(kind: Note, d: Shape) -> Note
    ensures { result ≡ intermediate kind d }
{
    if !flows(1, 1, d) {
        return 0;
    }
    when(defines(1, 0, d), kind)
}

#[tactic(auto, unfolding(crate::specs::Roles::activity))]
fn activity(kind: Note, d: Shape) -> Note
    ensures { result ≡ activity kind d }
{
    when(flows(1, 1, d), kind)
}

#[tactic(auto, unfolding(crate::specs::Roles::splits))]
fn splits(d: Shape) -> bool
    ensures { result ≡ splits d }
{
    d.ins == 1 && 2 <= d.outs
}

#[tactic(auto, unfolding(crate::specs::Roles::joins))]
fn joins(d: Shape) -> bool
    ensures { result ≡ joins d }
{
    2 <= d.ins && d.outs == 1
}

#[tactic(auto, using(base_words::proofs::PickLaws::picks), unfolding(crate::specs::Roles::gateway))]
fn gateway(split: Note, join: Note, d: Shape) -> Note
    ensures { result ≡ gateway split join d }
{
    if splits(d) {
        return split;
    }
    when(joins(d), join)
}

#[tactic(auto, using(base_words::proofs::PickLaws::picks), unfolding(crate::specs::Roles::kind_by))]
fn kind_by(s: Note, caught: Note, d: Shape) -> Note
    ensures { result ≡ kind_by s caught d }
{
    if s == START_EVENT {
        return start_drawn(d);
    }
    if s == END_EVENT {
        return end_drawn(d);
    }
    if s == INTERMEDIATE_CATCH_EVENT {
        return intermediate(caught, d);
    }
    if s == INTERMEDIATE_THROW_EVENT {
        return intermediate(kinds::INTER_SND, d);
    }
    if s == TASK {
        return activity(kinds::TASK, d);
    }
    if s == SEND_TASK {
        return activity(kinds::TASK_SND, d);
    }
    if s == RECEIVE_TASK {
        return activity(kinds::TASK_RCV, d);
    }
    if s == PARALLEL_GATEWAY {
        return gateway(kinds::AND_SPLIT, kinds::AND_JOIN, d);
    }
    if s == EXCLUSIVE_GATEWAY {
        return gateway(kinds::XOR_SPLIT, kinds::XOR_JOIN, d);
    }
    gateway(kinds::EVENT_BASED, 0, d)
}

#[tactic(auto, using(base_words::proofs::PickLaws::picks), unfolding(crate::specs::Roles::caught_as))]
fn caught_as(w: &[Note], n: Note, k: Note) -> Note
    ensures { result ≡ caught_as w.now n k }
{
    let flow = first_with(SEQUENCE_FLOW, TARGET_IN, k, w, n);
    if sort_of(w, source_of(w, flow)) == EVENT_BASED_GATEWAY {
        return kinds::BRANCH;
    }
    kinds::INTER_RCV
}

// The same where it is asked for: of a catch event.
#[tactic(auto, using(base_words::proofs::PickLaws::picks))]
fn caught_by(s: Note, w: &[Note], n: Note, k: Note) -> Note
    ensures { result ≡ (if eqb s intermediate_catch_event then caught_as w.now n k or_else 0) }
{
    if s == INTERMEDIATE_CATCH_EVENT {
        return caught_as(w, n, k);
    }
    0
}

fn kind_drawn(w: &[Note], n: Note, k: Note) -> Note
    ensures { result ≡ kind_drawn w.now n k }
{
    let s = sort_of(w, k);
    kind_by(s, caught_by(s, w, n, k), shape_of(w, n, k))
}

#[tactic(auto, using(base_words::proofs::PickLaws::picks), unfolding(crate::specs::Roles::kind_settled))]
fn settle(w: &mut [Note], n: Note, k: Note)
    ensures { w.new ≡ kind_settled n k w.old }
{
    if is_node_at(w, k) {
        let kind = kind_drawn(w, n, k);
        set_source(w, k, kind);
    }
}

// The kinds of nodes, stored in the things.
pub fn roles(w: &mut [Note], n: Note)
    ensures { w.new ≡ roles n w.old }
{
    for k in 0..n {
        settle(w, n, k);
    }
}

#[tactic(auto, unfolding(crate::specs::Roles::is_unsettled))]
fn is_unsettled(w: &[Note], k: Note) -> bool
    ensures { result ≡ is_unsettled w.now k }
{
    is_node_at(w, k) && kind_of_thing(w, k) == 0
}

// The same up to the first node of no kind, and whether there is none.
pub fn settle_kinds(w: &mut [Note], n: Note) -> bool
    ensures { (result ≡ are_settled n w.old) × (w.new ≡ settled_up_to n w.old) }
{
    for k in 0..n {
        settle(w, n, k);
        if is_unsettled(w, k) {
            return false;
        }
    }
    true
}
