//! The live flows of a book, which contracts see and no code reads.

ghost use Rattle.std.specs.Prelude.{◌≡◌, List, [], ◌∷◌, ◌++◌, map};
ghost use Rattle.std.specs.Borrow.{ftrue};
ghost use Rattle.flow_book.specs.Flows.{LiveFlow};
ghost use Rattle.flow_book.specs.Reserved.{with_grant};
ghost use Rattle.flow_book.specs.Book.{changed};
ghost use Rattle.flow_book.specs.Entry.{live};
ghost use Rattle.flow_book.specs.FlowList.{flows_code, AreGrantsAt};

use crate::flow::{Flow, Grant};
use crate::flows::Flows;
use crate::granted::GrantList;
use minislots::Checked;
use std::marker::Model;

// The live flows of a book, in order. They stand in proofs alone, so they take no memory, and a copy of them is no
// work.
#[derive(Drop)]
pub(crate) struct FlowList {
    pub(crate) ghost items: { List LiveFlow } by { flows_code },
}

impl Model for FlowList {
    ghost also_owns = { λ _. ftrue };
}

// A struct with `also_owns` has it not by itself. This one owns nothing.
unsafe impl Send for FlowList {}

impl FlowList {
    // No flows.
    pub(crate) fn none() -> FlowList
        ensures { result.items ≡ [] }
    {
        FlowList {}
    }

    // The same flows.
    pub(crate) fn same(_flows: &FlowList) -> FlowList
        ensures { result.items ≡ _flows.now.items }
    {
        FlowList {}
    }

    // The flows with one more behind them.
    pub(crate) fn and(_before: &FlowList, _flow: &Flow) -> FlowList
        ensures { result.items ≡ _before.now.items ++ live _flow.now ∷ [] }
    {
        FlowList {}
    }

    // The flows of this channel, where that of this SID has one grant more.
    pub(crate) fn granted(
        _before: &FlowList,
        _config: &Checked,
        _sid: &u16,
        _grant: &Grant,
    ) -> FlowList
        ensures { result.items ≡ changed _sid.now (with_grant _config.now _grant.now) _before.now.items }
    {
        FlowList {}
    }

    // The grants of the flow at this place, with no room for more.
    pub(crate) fn grants_at(_flows: &FlowList, _place: &usize) -> GrantList
        ensures { AreGrantsAt _place.now _flows.now.items result }
    {
        GrantList {}
    }
}

// The flows of a book.
pub(crate) fn list_of(flows: &Flows) -> FlowList
    ensures { result.items ≡ map live flows.now }
{
    let mut list = FlowList::none();
    for place in 0..flows.len() {
        list = FlowList::and(&list, flows.at(place));
    }
    list
}
