// A request at a unit, over its good memory.
ghost use Rattle.std.specs.Prelude.{◌≡◌, true, length};
ghost use Rattle.unit.specs.Shape.{shape_of};
ghost use Rattle.client.specs.Message.{page_limit};
ghost use Rattle.unit.specs.Memory.{good as good_memory};
ghost use Rattle.rule.specs.Serve.{bare, kind_of, bytes_of, page_shown, unit_says, unit_after};
ghost use Rattle.yard.specs.InsideParts.{held_in, response_in, OnUnit};

use client::{Page, Reply, Response, UnitAsk};
use layout::Layout;
use num::refusal::Refusal;
use num::{Epoch, Position};
use unit::prune::prune;
use unit::read::{payload, read};
use unit::seal::seal;
use unit::trim::trim;
use unit::write::write;

// An answer with no page and no layout.
pub(crate) fn bare(reply: Reply) -> Response
    ensures { result ≡ bare reply }
{
    Response {
        reply,
        page: Page::blank(),
        layout: Layout::blank(),
    }
}

// The kind and the bytes that a letter offers: a kind that no unit takes, and none, where its page is too long.
fn offered(page: &Page) -> (u8, &[u8])
    requires { length page.now.bytes ≡ page_limit }
    ensures { (result.0 ≡ kind_of page.now) × (result.1.now ≡ bytes_of page.now) }
{
    match page.bytes.get(..usize::from(page.len)) {
        Some(bytes) => (page.kind, bytes),
        None => (0, &[]),
    }
}

// The page of a position.
fn shown(mem: &[u8], epoch: Epoch, p: Position) -> Result<Response, Refusal>
    requires { good_memory (shape_of mem.now) mem.now ≡ true }
    ensures { response_in result ≡ page_shown (shape_of mem.now) (held_in mem.now) epoch p }
{
    let seen = read(mem, epoch, p)?;
    let part = payload(mem, epoch, p);
    Ok(Response {
        page: Page {
            kind: seen.kind as u8,
            len: part.len() as u8,
            bytes: Page::padded(part),
        },
        ..bare(Reply::Shown)
    })
}

// Whatever a unit is asked.
pub(crate) fn ask_unit(mem: &mut [u8], ask: UnitAsk, page: Page) -> Result<Response, Refusal>
    requires { good_memory (shape_of mem.old) mem.old ≡ true }
    ensures { OnUnit (shape_of mem.old)
        (unit_says (shape_of mem.old) (held_in mem.old) ask page)
        (unit_after (shape_of mem.old) (held_in mem.old) ask page) (response_in result) mem.new }
{
    match ask {
        UnitAsk::Write(epoch, p) => {
            let (kind, bytes) = offered(&page);
            write(mem, epoch, p, kind, bytes)?;
            Ok(bare(Reply::Fine))
        }
        UnitAsk::Read(epoch, p) => shown(mem, epoch, p),
        UnitAsk::Trim(epoch, p) => {
            trim(mem, epoch, p)?;
            Ok(bare(Reply::Fine))
        }
        UnitAsk::Prune(epoch, p) => {
            prune(mem, epoch, p)?;
            Ok(bare(Reply::Fine))
        }
        UnitAsk::Seal(epoch) => {
            let edges = seal(mem, epoch)?;
            Ok(bare(Reply::Edged(edges)))
        }
    }
}
