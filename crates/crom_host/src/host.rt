//! The host of a loaded page.
ghost use Rattle.std.specs.Prelude.{◌≡◌, [], ℕ, List, IfOk, OnErr, true};
ghost use Rattle.cell_places.specs.Kinds.{is_node};
ghost use Rattle.cell_places.specs.Heap.{kind_at};
ghost use Rattle.cell_places.specs.Sound.{IsSound};
ghost use Rattle.cell_heap.specs.Base.{heap_of};
ghost use Rattle.tree_shape.specs.Trees.{Trees};
ghost use Rattle.page_reader.specs.Page.{IsPage};
ghost use Rattle.page_loading.specs.declared.fault.LoadFault.{LoadFault};
ghost use Rattle.page_loading.specs.Loading.{ShowsFault};
ghost use Rattle.http_wire.specs.ReplyBytes.{IsReply};
ghost use Rattle.crom_host.specs.Replying as replies;
ghost use Rattle.crom_host.specs.Plain.{settings_of, hosted, Answered, PlainStep, Serves, ServesId};
ghost use Rattle.crom_host.specs.Loading.{LoadSays, OnlyReady, OnlyFault};

use cell_heap::Base;
use cell_places::DOCUMENT;
use dom_tree::{dom_text, element_by_id};
use http_wire::{Asked, Refusal, Reply, halted_reply, long_text_reply, refusal_reply, tree_reply};
use page_loading::{LoadFault, read_scripts};
use page_units::{CellName, Limit, Limits, NoMemory, Text};
use std::alloc::Global;

/// What loading a page gave.
#[derive(Drop)]
pub enum Loaded {
    /// The heap of the page, whose tree stands under its document.
    Ready(Base),
    /// The page has a `script` element, which isn't run yet.
    HasScripts,
}

/// Loads a page and reads its scripts, none of which is run; these bounds are those of its work.
/// `HasScripts` comes exactly where the page has a script and each has a program.
///
/// # Errors
///
/// `Page` exactly where the bytes are not a page: the rule that they break. `Script` exactly where a
/// script of the page is not a program: the number and the fault of the first such. `NoMemory` where
/// the allocator refused.
pub fn load(alloc: Global, page: &[u8], limits: &Limits) -> Result<Loaded, LoadFault>
    ensures says { LoadSays (settings_of limits.now) result page.now }
    // A page without scripts is loaded, and what shows a fault is refused with it.
    ensures only { (trees : Trees) → IsPage page.now trees [] → OnlyReady result }
    ensures only_fault { (fault : LoadFault) → ShowsFault page.now fault → OnlyFault result fault }
{
    let mut base = Base::start(alloc, limits.number(Limit::Weight), 0)?;
    let programs = match read_scripts(alloc, &mut base, page) {
        Ok(programs) => programs,
        Err(fault) => return Err(fault),
    };
    if programs.is_empty() {
        Ok(Loaded::Ready(base))
    } else {
        Ok(Loaded::HasScripts)
    }
}

/// The reply to what came: to what is asked, or to what is refused. A tree text is served within the
/// bound of its bytes. Out of memory, the heap is as it was.
pub fn answer(
    alloc: Global,
    base: &mut Base,
    limits: &Limits,
    asked: &Result<Asked, Refusal>,
) -> Result<Reply, NoMemory>
    requires sound { IsSound 0 (heap_of base.old) }
    ensures answered { IfOk result (λ reply. (r : replies.Reply)
        × Answered (settings_of limits.now) (hosted (heap_of base.old)) asked.now [] [] r
        (hosted (heap_of base.new)) × replies.IsOf reply r) }
    ensures valid { IfOk result IsReply }
    ensures same { OnErr result (heap_of base.new ≡ heap_of base.old) }
    ensures sound { IsSound 0 (heap_of base.new) }
{
    match asked {
        Ok(asked) => obey(alloc, base, limits, asked),
        Err(refusal) => refusal_reply(alloc, *refusal),
    }
}

/// The reply to a command: so far those that ask for tree texts, and `/halt`.
fn obey(alloc: Global, base: &mut Base, limits: &Limits, asked: &Asked) -> Result<Reply, NoMemory>
    requires sound { IsSound 0 (heap_of base.old) }
    ensures step { IfOk result (λ reply. (r : replies.Reply)
        × PlainStep (settings_of limits.now) (hosted (heap_of base.old)) asked.now [] [] r
        (hosted (heap_of base.new)) × replies.IsOf reply r) }
    ensures valid { IfOk result IsReply }
    ensures same { OnErr result (heap_of base.new ≡ heap_of base.old) }
    ensures sound { IsSound 0 (heap_of base.new) }
{
    match asked {
        Asked::Dom => serve(alloc, base, limits, DOCUMENT),
        Asked::Node(id) => serve_element(alloc, base, limits, id),
        Asked::Halt => halted_reply(alloc),
        Asked::Load => not_built(alloc),
        Asked::Stats => not_built(alloc),
        Asked::Event(_) => not_built(alloc),
        Asked::Tick(_) => not_built(alloc),
    }
}

/// The reply with the tree text of the first element with this id, or that there is none.
fn serve_element(
    alloc: Global,
    base: &mut Base,
    limits: &Limits,
    id: &Text,
) -> Result<Reply, NoMemory>
    requires sound { IsSound 0 (heap_of base.old) }
    ensures step { IfOk result (λ reply. (r : replies.Reply)
        × ServesId (settings_of limits.now) (heap_of base.old) id.now r × replies.IsOf reply r) }
    ensures valid { IfOk result IsReply }
    ensures same { heap_of base.new ≡ heap_of base.old }
{
    match element_by_id(alloc, base, id)?.cell {
        Some(element) => serve(alloc, base, limits, element),
        None => refusal_reply(alloc, Refusal::NoTarget),
    }
}

/// The reply with the tree text of a node, or that it is too long.
fn serve(alloc: Global, base: &mut Base, limits: &Limits, node: CellName) -> Result<Reply, NoMemory>
    requires sound { IsSound 0 (heap_of base.old) }
    requires node { is_node (kind_at (heap_of base.old) node) ≡ true }
    ensures serves { IfOk result (λ reply. (r : replies.Reply)
        × Serves (settings_of limits.now) (heap_of base.old) node r × replies.IsOf reply r) }
    ensures valid { IfOk result IsReply }
    ensures same { heap_of base.new ≡ heap_of base.old }
{
    match dom_text(alloc, base, node, limits.number(Limit::DomText))? {
        Some(text) => Ok(tree_reply(text)),
        None => long_text_reply(alloc),
    }
}

/// The reply to a command that isn't built yet.
fn not_built(alloc: Global) -> Result<Reply, NoMemory>
    ensures is { IfOk result (λ reply. replies.IsOf reply replies.not_built) }
    ensures valid { IfOk result IsReply }
{
    Ok(Reply {
        status: 501,
        html: false,
        allow: None,
        body: Vec::from_slice(alloc, b"{\"refused\":\"NotBuilt\"}")?,
    })
}
