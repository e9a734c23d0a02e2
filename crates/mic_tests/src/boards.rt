//! Runs and boards by public calls that no command makes.

use console_port::{Bus, MemoryMap};
use ijvm_image::Image;
use ijvm_verifier::{VerifiedImage, verify};
use mal_shipped::shipped_store;
use mem_cache::CachedBus;
use mic_base::{MemSink, MemSource};
use mic_clock::{Board, Clocked, End};
use mic_words::Machine;
use mic3_pipeline::{board3, run_image3};
use micro_word::{Part, Placed, PlacedNext, Store};
use shipped_microcode::{board1, board2, run_image1, run_image2};
use std::alloc::{AllocError, Global};
use std::test::Fail;

/// BIPUSH 0, BIPUSH 65, INVOKEVIRTUAL 0, OUT, HALT; then a method of two parameters: ILOAD 1, BIPUSH 1, IADD, IRETURN; then two bytes that nothing reaches.
const CALL: [u8; 21] = [
    0x10, 0x00, 0x10, 0x41, 0xB6, 0x00, 0x00, 0xFD, 0xFF, 0x00, 0x02, 0x00, 0x00, 0x15, 0x01, 0x10,
    0x01, 0x60, 0xAC, 0x00, 0x00,
];

/// The call after two NOPs, so that the method's entry is the last byte of a word.
const LATE_CALL: [u8; 21] = [
    0x00, 0x00, 0x10, 0x00, 0x10, 0x41, 0xB6, 0x00, 0x00, 0xFD, 0xFF, 0x00, 0x02, 0x00, 0x00, 0x15,
    0x01, 0x10, 0x01, 0x60, 0xAC,
];

/// Where the shipped microprogram begins.
const MAIN1: u16 = 2;

/// `goto 0x0ff`
const HALT: Placed = Placed {
    part: Part::IDLE,
    next: PlacedNext::Goto(0x0FF),
};

fn image_of(alloc: Global, text: &[u8; 21], entry: u32) -> Result<VerifiedImage, Fail> {
    let text = Vec::from_slice(alloc, text)?;
    let pool = Vec::from_slice(alloc, &[entry])?;
    Ok(verify(alloc, Image::new(text, pool), MemoryMap::STANDARD)?)
}

fn no_input(alloc: Global) -> MemSource {
    MemSource::new(Vec::new(alloc), Vec::new(alloc))
}

fn empty_sink(alloc: Global) -> Result<MemSink, AllocError> {
    MemSink::new(alloc, 100, Vec::new(alloc))
}

#[test]
fn images_run_on_mic1(rt: HostRuntime) -> Result<(), Fail> {
    let alloc = rt.alloc();
    for (text, entry, cycles) in [(&CALL, 9, 65), (&LATE_CALL, 11, 69)] {
        let image = image_of(alloc, text, entry)?;
        let mut sink = empty_sink(alloc)?;
        let board = run_image1(alloc, &image, 1000, &mut no_input(alloc), &mut sink)?;
        assert_eq!(rt;
            (board.ended(), board.counts().cycles),
            (Some(End::Halt), cycles)
        );
        assert_eq!(rt; sink.bytes(), b"B".as_slice());
    }
    Ok(())
}

#[test]
fn images_run_on_mic2(rt: HostRuntime) -> Result<(), Fail> {
    let alloc = rt.alloc();
    for (text, entry, cycles) in [(&CALL, 9, 41), (&LATE_CALL, 11, 44)] {
        let image = image_of(alloc, text, entry)?;
        let mut sink = empty_sink(alloc)?;
        let board = run_image2(alloc, &image, 1000, &mut no_input(alloc), &mut sink)?;
        assert_eq!(rt;
            (board.ended(), board.counts().cycles),
            (Some(End::Halt), cycles)
        );
        assert_eq!(rt; sink.bytes(), b"B".as_slice());
    }
    Ok(())
}

#[test]
fn images_run_on_mic3(rt: HostRuntime) -> Result<(), Fail> {
    let alloc = rt.alloc();
    for (text, entry, cycles) in [(&CALL, 9, 86), (&LATE_CALL, 11, 93)] {
        let image = image_of(alloc, text, entry)?;
        let mut sink = empty_sink(alloc)?;
        let board = run_image3(alloc, &image, 1000, &mut no_input(alloc), &mut sink)?;
        assert_eq!(rt;
            (board.ended(), board.counts().cycles),
            (Some(End::Halt), cycles)
        );
        assert_eq!(rt; sink.bytes(), b"B".as_slice());
    }
    Ok(())
}

/// MPC, SP and the first word of the pool.
fn reset_of<M: Clocked>(board: &Board<M>) -> (u16, u32, Option<u32>) {
    (board.mpc(), board.registers().sp, board.bus().peek(0x4000))
}

#[test]
fn boards_stand_at_their_reset(rt: HostRuntime) -> Result<(), Fail> {
    let alloc = rt.alloc();
    let image = image_of(alloc, &CALL, 9)?;
    let reset = (5, 0x7FFF, Some(9));
    let board = board1(alloc, &image, Store::filled(Machine::Mic1, &HALT), 5)?;
    assert_eq!(rt; reset_of(&board), reset);
    let board = board2(alloc, &image, Store::filled(Machine::Mic2, &HALT), 5)?;
    assert_eq!(rt; reset_of(&board), reset);
    let board = board3(alloc, &image, Store::filled(Machine::Mic2, &HALT), 5)?;
    assert_eq!(rt; reset_of(&board), reset);
    Ok(())
}

#[test]
fn an_instruction_ends_at_the_next_boundary(rt: HostRuntime) -> Result<(), Fail> {
    let alloc = rt.alloc();
    let image = image_of(alloc, &CALL, 9)?;
    let store = shipped_store(alloc, Machine::Mic1)?;
    let mut board = board1(alloc, &image, store, MAIN1)?;
    for cycles in [2, 6, 10, 33] {
        assert!(rt; board.counts().cycles < 33);
        assert_eq!(rt;
            board.instruction(&mut no_input(alloc), &mut empty_sink(alloc)?),
            None
        );
        assert_eq!(rt; board.counts().cycles, cycles);
    }
    Ok(())
}

#[test]
fn a_cache_returns_what_its_bus_does(rt: HostRuntime) -> Result<(), Fail> {
    let alloc = rt.alloc();
    let mut bus = Bus::new(alloc, MemoryMap::STANDARD)?;
    bus.load(&CALL, &[9]);
    assert_eq!(rt;
        (bus.fetch_byte(3), bus.fetch_word(0)),
        (Ok(0x41), Ok(0x1000_1041))
    );
    let mut cache = CachedBus::new(alloc, 2, bus)?;
    for access in 0..4 {
        assert!(rt; cache.counts().hits < 4 && cache.counts().misses < 4);
        if access % 2 == 0 {
            assert_eq!(rt; cache.fetch_byte(3), Ok(0x41));
        } else {
            let word = cache.read_word(0, &mut no_input(alloc), &mut empty_sink(alloc)?);
            assert_eq!(rt; word, Ok(0x1000_1041));
        }
    }
    assert_eq!(rt; (cache.counts().hits, cache.counts().misses), (3, 1));
    Ok(())
}
