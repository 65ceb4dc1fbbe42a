// What a client sends and what is handed back to it.
ghost use Rattle.std.specs.Prelude.{◌≡◌};
ghost use Rattle.layout.specs.Value.{padded};
ghost use Rattle.client.specs.Message.{IsRefusal, page_limit, no_page, no_query, no_response, junk, is_showable, number_of, plain, bearing, offering};

use crate::{Ask, Page, Query, Reply, Response};
use layout::Layout;
use num::refusal::Refusal;

impl Page {
    // Bytes that a page has room for.
    pub const ROOM: usize = 80;

    // Bytes that a data page may hold in a yard of small units.
    pub const SMALL: u8 = 32;

    // And of large ones.
    pub const LARGE: u8 = 80;

    pub const DATA: u8 = 1;

    pub const JUNK: u8 = 2;

    // No page.
    pub fn blank() -> Page
        ensures { result ≡ no_page }
    {
        Page {
            kind: 0,
            len: 0,
            bytes: [0u8; Page::ROOM],
        }
    }

    // What a fill writes where nothing stands.
    pub fn junk() -> Page
        ensures { result ≡ junk }
    {
        Page {
            kind: Page::JUNK,
            len: 0,
            bytes: [0u8; Page::ROOM],
        }
    }

    // Bytes as a page holds them: as many as there is room for, and zeros behind them.
    pub fn padded(bytes: &[u8]) -> [u8; Page::ROOM]
        ensures { result ≡ padded page_limit 0 bytes.now }
    {
        let n = bytes.len().min(Page::ROOM);
        let mut held = [0u8; Page::ROOM];
        held[..n].copy_from_slice(&bytes[..n]);
        held
    }

    // Data or junk, and no longer than there is room for.
    #[tactic(auto, unfolding(crate::specs::Message::is_showable))]
    pub(crate) fn is_showable(self) -> bool
        ensures { result ≡ is_showable self }
    {
        matches!(self.kind, Page::DATA | Page::JUNK) && self.len <= Page::LARGE
    }
}

impl Query {
    // What stands where nothing is sent.
    pub fn blank() -> Query
        ensures { result ≡ no_query }
    {
        Query::plain(Ask::Fetch)
    }

    // A request with no page and no layout.
    pub(crate) fn plain(ask: Ask) -> Query
        ensures { result ≡ plain ask }
    {
        Query {
            ask,
            page: Page::blank(),
            layout: Layout::blank(),
        }
    }

    // A request that bears a page.
    pub(crate) fn bearing(ask: Ask, page: Page) -> Query
        ensures { result ≡ bearing ask page }
    {
        Query {
            page,
            ..Query::plain(ask)
        }
    }

    // The offer of a layout.
    pub(crate) fn offering(layout: Layout) -> Query
        ensures { result ≡ offering layout }
    {
        Query {
            layout,
            ..Query::plain(Ask::Offer)
        }
    }
}

impl Response {
    // What stands where nothing is answered: it answers no request.
    pub fn blank() -> Response
        ensures { result ≡ no_response }
    {
        Response {
            reply: Reply::Refused(0),
            page: Page::blank(),
            layout: Layout::blank(),
        }
    }
}

impl Reply {
    // The refusal of a machine: units, sequencer and holder give 1 to 12.
    #[tactic(auto, using(crate::proofs::Refusing::machine_refusal), unfolding(crate::specs::Message::no_refusal))]
    pub(crate) fn refusal(self) -> Option<Refusal>
        ensures { IsRefusal (number_of self) result }
    {
        match number_of(self) {
            number @ 1..=12 => Refusal::try_from(number).ok(),
            _ => None,
        }
    }
}

// The number of an answer (docs/RULES.md, 10): 0 for each that is no refusal.
pub fn number_of(reply: Reply) -> u8
    ensures { result ≡ number_of reply }
{
    match reply {
        Reply::Refused(n) => n,
        _ => 0,
    }
}
