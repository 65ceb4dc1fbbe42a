// A fresh yard made odd: its clients or its epochs near their last numbers, or something lent that no step ever leaves, or a letter that no client sends.
use client::{Ask, Client, Page, Stamp};
use kept::Kept;
use layout::{Chain, Layout};
use num::refusal::Refusal;
use num::{Epoch, Position, Request};
use rule::{Body, Letter, Yard};
use sequencer::start;
use unit::memory::Unit;
use unit::seal::seal;

// Each by the byte that names it, from 1 on.
#[derive(Clone, Copy, PartialEq, Eq)]
pub(crate) enum Oddity {
    // The clients are near their last life and their last request number.
    OldClients = 1,
    // Every unit is sealed near the last epoch, the sequencer is started there, and the held layout is of it.
    OldEpochs,
    // A spare byte in the header of unit 3.
    SpareByte,
    // The memory of unit 3 bears the number 4.
    OtherNumber,
    // The held layout has no sets.
    NoSets,
    // A count above the table.
    CountAbove,
    // One letter, that no client sends.
    StrangeLetter,
    // The memory of unit 3 is of the other shape.
    OtherShape,
}

impl TryFrom<u8> for Oddity {
    type Error = Refusal;

    fn try_from(name: u8) -> Result<Oddity, Refusal> {
        match name {
            1 => Ok(Oddity::OldClients),
            2 => Ok(Oddity::OldEpochs),
            3 => Ok(Oddity::SpareByte),
            4 => Ok(Oddity::OtherNumber),
            5 => Ok(Oddity::NoSets),
            6 => Ok(Oddity::CountAbove),
            7 => Ok(Oddity::StrangeLetter),
            8 => Ok(Oddity::OtherShape),
            _ => Err(Refusal::Play),
        }
    }
}

// Near the last of each kind.
const LIFE: u16 = Client::LAST_LIFE - 1;

const USED: u32 = Request::LAST - 60;

const SEALED: u32 = Epoch::LAST - 5;

const HELD: u32 = Epoch::LAST - 4;

// Where the memory of unit 3 has its number, its shape and a spare byte.
const NUMBER: usize = 2 * Unit::SIZE;

const SHAPE: usize = 2 * Unit::SIZE + 1;

const SPARE: usize = 2 * Unit::SIZE + 20;

fn seal_all(units: &mut [u8]) {
    for memory in units.chunks_exact_mut(Unit::SIZE) {
        let _ = seal(memory, Epoch(SEALED));
    }
}

// Client 1 offers, under its first number, a layout in which the first set is unit 8 alone.
fn offer(held: Layout) -> Letter {
    let mut layout = Layout {
        epoch: Epoch(2),
        ..held
    };
    layout.sets[0] = Chain {
        count: 1,
        units: [8, 0, 0, 0],
    };
    Letter {
        stamp: Stamp {
            client: 1,
            life: 1,
            number: Request(1),
        },
        body: Body::Asks(Ask::Offer),
        page: Page::blank(),
        layout,
    }
}

fn old_clients() -> [Client; Yard::CLIENTS] {
    let client = Client {
        life: LIFE,
        used: Request(USED),
        ..Client::fresh()
    };
    [client; Yard::CLIENTS]
}

// The fresh yard made odd.
pub(crate) fn made_odd(mut kept: Kept, units: &mut [u8; Yard::SIZE], odd: Oddity) -> Kept {
    match odd {
        Oddity::OldClients => {
            let clients = old_clients();
            let yard = Yard {
                clients,
                ..kept.yard
            };
            kept.yard = yard;
        }
        Oddity::OldEpochs => {
            seal_all(units);
            let _ = start(&mut kept.sequencer, Epoch(HELD), Position(0));
            kept.yard.held.epoch = Epoch(HELD);
        }
        Oddity::SpareByte => units[SPARE] = 1,
        Oddity::OtherNumber => units[NUMBER] = 4,
        Oddity::NoSets => kept.yard.held.set_count = 0,
        Oddity::CountAbove => kept.yard.count = Yard::MOST + 1,
        Oddity::StrangeLetter => {
            let letter = offer(kept.yard.held);
            kept.table[0] = letter;
            kept.yard.count = 1;
        }
        Oddity::OtherShape => units[SHAPE] = u8::from(units[SHAPE] == 0),
    }
    kept
}
