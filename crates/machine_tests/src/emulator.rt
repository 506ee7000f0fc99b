//! Runs of small images, and a table of instructions with their results.

ghost use Rattle.std.specs.Prelude.{◌≤◌, IfOk, length};
ghost use Rattle.rv_emulator.specs.Loading.{IsLoadable};

use results::{HARNESS, RESULTS, SLOT};
use rv_emulator::{RunEnd, load};
use rv_form::{Image, Segment, Segments};
use scheme_base::Bytes;
use stalin_outside::MemConsole;
use std::alloc::{AllocError, Global};
use std::test::Fail;

mod results;

/// The first image's segment for `a` and a line end: it writes them, or a line on channel 2 and ends with 3.
const FIRST: [u8; 126] = [
    0x17, 0x09, 0x00, 0x00, // auipc x18,0
    0x13, 0x09, 0xc9, 0x07, // addi x18,x18,124
    0x97, 0x09, 0x00, 0x00, // auipc x19,0
    0x93, 0x89, 0x69, 0x07, // addi x19,x19,118
    0x63, 0x04, 0x39, 0x03, // beq x18,x19,.+40
    0x13, 0x05, 0x10, 0x00, // addi x10,x0,1
    0x93, 0x05, 0x09, 0x00, // addi x11,x18,0
    0x13, 0x06, 0x10, 0x00, // addi x12,x0,1
    0x93, 0x08, 0x00, 0x04, // addi x17,x0,64
    0x73, 0x00, 0x00, 0x00, // ecall
    0x93, 0x06, 0x10, 0x00, // addi x13,x0,1
    0x63, 0x1c, 0xd5, 0x00, // bne x10,x13,.+24
    0x13, 0x09, 0x19, 0x00, // addi x18,x18,1
    0x6f, 0xf0, 0xdf, 0xfd, // jal x0,.-36
    0x13, 0x05, 0x00, 0x00, // addi x10,x0,0
    0x93, 0x08, 0xd0, 0x05, // addi x17,x0,93
    0x73, 0x00, 0x00, 0x00, // ecall
    0x17, 0x09, 0x00, 0x00, // auipc x18,0
    0x13, 0x09, 0x49, 0x03, // addi x18,x18,52
    0x93, 0x09, 0x39, 0x00, // addi x19,x18,3
    0x13, 0x05, 0x20, 0x00, // addi x10,x0,2
    0x93, 0x05, 0x09, 0x00, // addi x11,x18,0
    0x13, 0x06, 0x10, 0x00, // addi x12,x0,1
    0x93, 0x08, 0x00, 0x04, // addi x17,x0,64
    0x73, 0x00, 0x00, 0x00, // ecall
    0x13, 0x09, 0x19, 0x00, // addi x18,x18,1
    0xe3, 0x14, 0x39, 0xff, // bne x18,x19,.-24
    0x13, 0x05, 0x30, 0x00, // addi x10,x0,3
    0x93, 0x08, 0xd0, 0x05, // addi x17,x0,93
    0x73, 0x00, 0x00, 0x00, // ecall
    0x69, 0x6f, 0x0a, 0x00, 0x61, 0x0a,
];
/// Writes `addi x10, x0, 9` over its breakpoint, and ends with that status.
const REWRITES: [u8; 28] = [
    0x97, 0x02, 0x00, 0x00, // auipc x5, 0
    0x03, 0xa3, 0x82, 0x01, // lw x6, 24(x5)
    0x23, 0xa6, 0x62, 0x00, // sw x6, 12(x5)
    0x73, 0x00, 0x10, 0x00, // ebreak
    0x93, 0x08, 0xd0, 0x05, // addi x17, x0, 93
    0x73, 0x00, 0x00, 0x00, // ecall
    0x13, 0x05, 0x90, 0x00, // addi x10, x0, 9
];
/// Ends with the first byte of the segment after the data, by a load that crosses into it.
const CROSSES: [u8; 20] = [
    0xb7, 0x12, 0x02, 0x00, // lui x5, 0x21
    0x03, 0xb5, 0xc2, 0xff, // ld x10, -4(x5)
    0x13, 0x55, 0x05, 0x02, // srli x10, x10, 32
    0x93, 0x08, 0xd0, 0x05, // addi x17, x0, 93
    0x73, 0x00, 0x00, 0x00, // ecall
];
/// Writes what it reads, and ends with the answer of the last read.
const ECHOES: [u8; 52] = [
    0x13, 0x05, 0x00, 0x00, // addi x10, x0, 0
    0xb7, 0x05, 0x02, 0x00, // lui x11, 0x20
    0x13, 0x06, 0x10, 0x00, // addi x12, x0, 1
    0x93, 0x08, 0xf0, 0x03, // addi x17, x0, 63
    0x73, 0x00, 0x00, 0x00, // ecall
    0x93, 0x06, 0x10, 0x00, // addi x13, x0, 1
    0x63, 0x1a, 0xd5, 0x00, // bne x10, x13, end
    0x13, 0x05, 0x10, 0x00, // addi x10, x0, 1
    0x93, 0x08, 0x00, 0x04, // addi x17, x0, 64
    0x73, 0x00, 0x00, 0x00, // ecall
    0x6f, 0xf0, 0x9f, 0xfd, // jal x0, loop
    0x93, 0x08, 0xd0, 0x05, // addi x17, x0, 93
    0x73, 0x00, 0x00, 0x00, // ecall
];
/// Ends with the answer of a write of one byte at address 0.
const WRITES_NOWHERE: [u8; 24] = [
    0x13, 0x05, 0x10, 0x00, // addi x10, x0, 1
    0x13, 0x06, 0x10, 0x00, // addi x12, x0, 1
    0x93, 0x08, 0x00, 0x04, // addi x17, x0, 64
    0x73, 0x00, 0x00, 0x00, // ecall
    0x93, 0x08, 0xd0, 0x05, // addi x17, x0, 93
    0x73, 0x00, 0x00, 0x00, // ecall
];

/// The operands of the table, from 131072 on.
const OPERANDS: [u8; 64] = [
    0, 0, 0, 0, 0, 0, 0, 0, // 0
    1, 0, 0, 0, 0, 0, 0, 0, // 1
    255, 255, 255, 255, 255, 255, 255, 255, // -1
    0, 0, 0, 0, 0, 0, 0, 128, // -2^63
    255, 255, 255, 255, 255, 255, 255, 127, // 2^63 - 1
    0, 0, 0, 128, 0, 0, 0, 0, // 2^31
    255, 255, 255, 127, 0, 0, 0, 0, // 2^31 - 1
    0, 0, 0, 128, 255, 255, 255, 255, // -2^31
];

/// What a machine has come to, and its console.
#[derive(Drop)]
struct Outcome {
    end: RunEnd,
    console: MemConsole,
}

/// An image of the code with these flags at 65536, of a page at 131072 that may be read and written and has
/// `OPERANDS`, and of 16 bytes after it that may be read, the first of which is 42.
fn image(alloc: Global, code: &[u8], flags: u32) -> Result<Image, AllocError>
    requires { length code.now ≤ 4096 }
    ensures { IfOk result (λ image. IsLoadable image.segments) }
{
    let mut segments = Segments::new(alloc);
    segments.push(Segment {
        vaddr: 65536,
        memsz: code.len() as u64,
        flags,
        bytes: Bytes::from_slice(alloc, code)?,
    })?;
    segments.push(Segment {
        vaddr: 131072,
        memsz: 4096,
        flags: 6,
        bytes: Bytes::from_slice(alloc, &OPERANDS)?,
    })?;
    segments.push(Segment {
        vaddr: 135168,
        memsz: 16,
        flags: 4,
        bytes: Bytes::from_slice(alloc, &[42])?,
    })?;
    Ok(Image {
        entry: 65536,
        segments,
    })
}

/// Runs the code with one budget after another; the console has `input`, room for eight answers, and fails
/// at the calls listed.
fn run_code(
    alloc: Global,
    code: &[u8],
    flags: u32,
    input: &[u8],
    failing: &[u64],
    budgets: &[u64],
) -> Result<Outcome, AllocError>
    requires { length code.now ≤ 4096 }
{
    let image = image(alloc, code, flags)?;
    let mut machine = load(alloc, &image)?;
    let mut console = MemConsole::new(alloc, input, 8, failing)?;
    let mut end = RunEnd::Spent { steps: 0 };
    for steps in budgets {
        end = machine.run(*steps, &mut console);
    }
    Ok(Outcome { end, console })
}

/// What the code comes to with no input.
fn end_of(alloc: Global, code: &[u8], budgets: &[u64]) -> Result<RunEnd, AllocError>
    requires { length code.now ≤ 4096 }
{
    Ok(run_code(alloc, code, 5, &[], &[], budgets)?.end)
}

/// The number that the table's program writes with this instruction.
fn number_with(alloc: Global, word: u32) -> Result<Option<u64>, AllocError> {
    let mut code = HARNESS;
    code[SLOT] = (word % 256) as u8;
    code[SLOT + 1] = (word / 256 % 256) as u8;
    code[SLOT + 2] = (word / 0x1_0000 % 256) as u8;
    code[SLOT + 3] = (word / 0x100_0000) as u8;
    let outcome = run_code(alloc, &code, 5, &[], &[], &[1_000_000])?;
    if outcome.end != (RunEnd::Ended { status: 0 }) {
        return Ok(None);
    }
    match outcome.console.output() {
        [a, b, c, d, e, f, g, h] => Ok(Some(u64::from_le_bytes([*a, *b, *c, *d, *e, *f, *g, *h]))),
        _ => Ok(None),
    }
}

#[test]
fn instructions_compute_what_qemu_says(rt: HostRuntime) -> Result<(), Fail> {
    for (word, number) in RESULTS {
        assert_eq!(rt;
            number_with(rt.alloc(), word)?,
            Some(number),
            "of {word:#x}"
        );
    }
    Ok(())
}

#[test]
fn first_image_writes_its_characters(rt: HostRuntime) -> Result<(), Fail> {
    let whole = run_code(rt.alloc(), &FIRST, 5, &[], &[], &[28])?;
    assert_eq!(rt; whole.end, RunEnd::Ended { status: 0 });
    assert_eq!(rt; whole.console.output(), b"a\n".as_slice());
    let cut = run_code(rt.alloc(), &FIRST, 5, &[], &[], &[27])?;
    assert_eq!(rt; cut.end, RunEnd::Spent { steps: 27 });
    assert_eq!(rt; cut.console.output(), b"a\n".as_slice());
    let failing = run_code(rt.alloc(), &FIRST, 5, &[], &[1], &[1000])?;
    assert_eq!(rt; failing.end, RunEnd::Ended { status: 3 });
    assert_eq!(rt; failing.console.output(), b"".as_slice());
    assert_eq!(rt; failing.console.errors(), b"io\n".as_slice());
    Ok(())
}

#[test]
fn runs_go_on_where_they_were(rt: HostRuntime) -> Result<(), Fail> {
    assert_eq!(rt;
        end_of(rt.alloc(), &FIRST, &[0])?,
        RunEnd::Spent { steps: 0 }
    );
    assert_eq!(rt;
        end_of(rt.alloc(), &FIRST, &[9, 18])?,
        RunEnd::Spent { steps: 18 }
    );
    assert_eq!(rt;
        end_of(rt.alloc(), &FIRST, &[9, 18, 1])?,
        RunEnd::Ended { status: 0 }
    );
    assert_eq!(rt;
        end_of(rt.alloc(), &FIRST, &[28, 0, 5])?,
        RunEnd::Ended { status: 0 }
    );
    Ok(())
}

#[test]
fn traps_have_their_kind_and_place(rt: HostRuntime) -> Result<(), Fail> {
    let traps: [(&[u8], u8, u64); 9] = [
        (&[0, 0, 0, 0], 1, 65536),
        (&[0x6f, 0x00, 0x80, 0x00], 2, 65544), // jal x0, .+8
        (&[0x67, 0x00, 0x20, 0x00], 2, 2), // jalr x0, 2(x0)
        (&[0x83, 0x30, 0x00, 0x00], 3, 65536), // ld x1, 0(x0)
        (&[0xb7, 0x12, 0x02, 0x00, 0x83, 0xb0, 0xc2, 0x00], 3, 65540), // lui x5, 0x21; ld x1, 12(x5)
        (&[0x97, 0x02, 0x00, 0x00, 0x23, 0xb0, 0x02, 0x00], 4, 65540), // auipc x5, 0; sd x0, 0(x5)
        (&[0xb7, 0x12, 0x02, 0x00, 0x23, 0xbe, 0x02, 0xfe], 4, 65540), // lui x5, 0x21; sd x0, -4(x5)
        (&[0x73, 0x00, 0x00, 0x00], 5, 65536), // ecall
        (&[0x93, 0x00, 0x10, 0x00, 0x73, 0x00, 0x10, 0x00], 6, 65540), // addi x1, x0, 1; ebreak
    ];
    for (code, kind, pc) in traps {
        let place = RunEnd::Trapped { kind, pc };
        assert_eq!(rt; end_of(rt.alloc(), code, &[100])?, place);
        assert_eq!(rt; end_of(rt.alloc(), code, &[1])?, place);
        assert_eq!(rt; end_of(rt.alloc(), code, &[1, 7])?, place);
    }
    assert_eq!(rt;
        end_of(rt.alloc(), &[0, 0, 0, 0], &[0])?,
        RunEnd::Trapped { kind: 1, pc: 65536 }
    );
    Ok(())
}

#[test]
fn memory_is_of_bytes(rt: HostRuntime) -> Result<(), Fail> {
    assert_eq!(rt;
        end_of(rt.alloc(), &CROSSES, &[100])?,
        RunEnd::Ended { status: 42 }
    );
    let rewrites = run_code(rt.alloc(), &REWRITES, 7, &[], &[], &[100])?;
    assert_eq!(rt; rewrites.end, RunEnd::Ended { status: 9 });
    Ok(())
}

#[test]
fn system_calls_answer(rt: HostRuntime) -> Result<(), Fail> {
    let echo = run_code(rt.alloc(), &ECHOES, 5, b"xyz", &[], &[1000])?;
    assert_eq!(rt; echo.end, RunEnd::Ended { status: 0 });
    assert_eq!(rt; echo.console.output(), b"xyz".as_slice());
    let failing = run_code(rt.alloc(), &ECHOES, 5, b"xyz", &[3], &[1000])?;
    assert_eq!(rt; failing.end, RunEnd::Ended { status: 251 });
    assert_eq!(rt; failing.console.output(), b"x".as_slice());
    assert_eq!(rt;
        end_of(rt.alloc(), &WRITES_NOWHERE, &[100])?,
        RunEnd::Ended { status: 242 }
    );
    Ok(())
}
