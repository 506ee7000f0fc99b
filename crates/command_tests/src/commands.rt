//! Worked examples of whole commands, over a shelf and a console in memory.

mod emulation;
mod printing;

use scheme_base::{Bytes, Words};
use stalin_outside::{MemConsole, MemShelf, OpenGate};
use stalin_top::{stalin, status};
use std::alloc::{AllocError, Global};
use std::test::Fail;
use std::thread::Threads;

/// How many bytes the files in these examples may grow to.
const ROOM: usize = 0x20_0000;

/// How many bytes the error channel takes.
const LINE: usize = 64;

/// What a command leaves behind.
#[derive(Drop)]
struct Report {
    status: u8,
    /// What it wrote to the error channel.
    text: Bytes,
    /// What it wrote to the output.
    output: Bytes,
    /// The file `out`, which held `old` before.
    out: Bytes,
    /// The status of the same command on what it left behind, and what that wrote to the error channel.
    again: u8,
    text_again: Bytes,
}

/// Runs a command twice on a shelf with the source or image `in`, where these calls of the shelf fail.
fn report_of<R: AllocGlobal + Threads + Sync>(
    rt: &R,
    alloc: Global,
    texts: &[&str],
    source: &[u8],
    failing: &[u64],
) -> Result<Report, AllocError> {
    let mut shelf = MemShelf::new(alloc)?;
    shelf.add("in", source, ROOM)?;
    shelf.add("out", b"old", ROOM)?;
    shelf.fail_at(failing)?;
    let words = words_of(alloc, texts)?;
    let (status, text, output) = run(rt, alloc, &words, &mut shelf, b"", &[])?;
    let out = Bytes::from_slice(alloc, shelf.file("out").unwrap_or(&[]))?;
    let (again, text_again, _output) = run(rt, alloc, &words, &mut shelf, b"", &[])?;
    Ok(Report {
        status,
        text,
        output,
        out,
        again,
        text_again,
    })
}

fn words_of(alloc: Global, texts: &[&str]) -> Result<Words, AllocError> {
    let mut words = Words::new(alloc)?;
    for text in texts {
        words.push(text)?;
    }
    Ok(words)
}

/// Runs a command with this input, where these calls of the console's input and output fail: its status, and
/// what it wrote to the error channel and to the output.
fn run<R: AllocGlobal + Threads + Sync>(
    rt: &R,
    alloc: Global,
    words: &Words,
    shelf: &mut MemShelf,
    input: &[u8],
    failing: &[u64],
) -> Result<(u8, Bytes, Bytes), AllocError> {
    let mut console = MemConsole::new(alloc, input, LINE, failing)?;
    let answer = stalin(rt, alloc, words, shelf, &mut console, &OpenGate);
    let text = Bytes::from_slice(alloc, console.errors())?;
    let output = Bytes::from_slice(alloc, console.output())?;
    Ok((status(&answer), text, output))
}

#[test]
fn words_are_read_from_the_left(rt: HostRuntime) -> Result<(), Fail> {
    let rows: [(&[&str], &str); 30] = [
        (&[], "usage: word 1\n"),
        (&[""], "usage: word 1\n"),
        (&["frob", "a", "b"], "usage: word 1\n"),
        (&["compile"], "usage: word 2\n"),
        (&["compile", "in"], "usage: word 3\n"),
        (&["compile", "", "out"], "usage: word 2\n"),
        (&["compile", "--heap", "out"], "usage: word 3\n"),
        (&["compile", "--steps", "5"], "usage: word 2\n"),
        (&["compile", "in", "out", "--heap"], "usage: word 5\n"),
        (
            &["compile", "in", "out", "--heap", "4095"],
            "usage: word 5\n",
        ),
        (
            &["compile", "in", "out", "--heap", "4104"],
            "usage: word 5\n",
        ),
        (
            &["compile", "in", "out", "--heap", "1073741840"],
            "usage: word 5\n",
        ),
        (
            &["compile", "in", "out", "--workers", "0"],
            "usage: word 5\n",
        ),
        (
            &["compile", "in", "out", "--workers", "33"],
            "usage: word 5\n",
        ),
        (
            &["compile", "--workers", "2", "in", "--workers", "2"],
            "usage: word 5\n",
        ),
        (&["run"], "usage: word 2\n"),
        (&["run", "in", "out"], "usage: word 3\n"),
        (&["compile", "in", "--workers"], "usage: word 4\n"),
        (&["compile", "in", "out", "more"], "usage: word 4\n"),
        (&["emulate"], "usage: word 2\n"),
        (&["emulate", "in", "more"], "usage: word 3\n"),
        (&["emulate", "in", "--heap", "5"], "usage: word 3\n"),
        (&["emulate", "in", "--steps"], "usage: word 4\n"),
        (&["emulate", "--steps", "5"], "usage: word 4\n"),
        (&["emulate", "in", "--steps", "0"], "usage: word 4\n"),
        (&["emulate", "in", "--steps", "007"], "usage: word 4\n"),
        (&["emulate", "in", "--steps", "+7"], "usage: word 4\n"),
        (
            &["emulate", "--steps", "1000000000000000001", "in"],
            "usage: word 3\n",
        ),
        (&["emulate", "--steps", "--steps", "in"], "usage: word 3\n"),
        (
            &["emulate", "--steps", "5", "in", "--steps", "5"],
            "usage: word 5\n",
        ),
    ];
    for (texts, text) in rows {
        let report = report_of(&rt, rt.alloc(), texts, b"", &[])?;
        assert_eq!(rt; report.status, 64);
        assert_eq!(rt; report.text.as_slice(), text.as_bytes());
        assert_eq!(rt; report.out.as_slice(), b"old".as_slice());
    }
    Ok(())
}

#[test]
fn sources_are_refused(rt: HostRuntime) -> Result<(), Fail> {
    let rows: [(&str, &str); 8] = [
        ("(display 1", "refused: read 1 at 1:1\n"),
        ("( . a)", "refused: read 2 at 1:3\n"),
        ("(display #\\ab)", "refused: read 3 at 1:10\n"),
        ("2305843009213693952", "refused: read 4 at 1:1\n"),
        ("(if)", "refused: form 5 at 1:1\n"),
        ("(let ((x 1) (x 2)) x)", "refused: form 12 at 1:1\n"),
        ("1\n (lambda (x) (define y 1))", "refused: form 4 at 2:2\n"),
        ("(display 1) (define)", "refused: form 11 at 1:13\n"),
    ];
    for (source, text) in rows {
        for words in [["compile", "in", "out"].as_slice(), &["run", "in"]] {
            let report = report_of(&rt, rt.alloc(), words, source.as_bytes(), &[])?;
            assert_eq!(rt; report.status, 65, "{source}");
            assert_eq!(rt; report.text.as_slice(), text.as_bytes());
            assert_eq!(rt; report.out.as_slice(), b"old".as_slice());
        }
    }
    Ok(())
}

/// Runs the program in the file `in` with a heap of so many bytes, where these calls of the console's input and
/// output fail: by `run`, or by `compile` and `emulate`.
fn ended<R: AllocGlobal + Threads + Sync>(
    rt: &R,
    alloc: Global,
    source: &str,
    heap: &str,
    input: &str,
    failing: &[u64],
    compiled: bool,
) -> Result<(u8, Bytes, Bytes), AllocError> {
    let mut shelf = MemShelf::new(alloc)?;
    shelf.add("in", source.as_bytes(), ROOM)?;
    shelf.add("out", b"", ROOM)?;
    let mut words = words_of(alloc, &["run", "in", "--heap", heap])?;
    if compiled {
        words = words_of(alloc, &["compile", "in", "out", "--heap", heap])?;
        let _done = run(rt, alloc, &words, &mut shelf, b"", &[])?;
        words = words_of(alloc, &["emulate", "out"])?;
    }
    run(rt, alloc, &words, &mut shelf, input.as_bytes(), failing)
}

/// Programs with their input, the calls that fail, their status, their output and their errors.
const PROGRAMS: [(&str, &str, &[u64], u8, &str, &str); 29] = [
    ("", "", &[], 0, "", ""),
    ("(display \"hi\")(newline)", "", &[], 0, "hi\n", ""),
    (
        "(write (+ 2305843009213693951 1))",
        "",
        &[],
        1,
        "",
        "error 6 at 1:8\n",
    ),
    (
        "(write (- -2305843009213693951 1))",
        "",
        &[],
        0,
        "-2305843009213693952",
        "",
    ),
    ("-2305843009213693952", "", &[], 0, "", ""),
    (
        "(define n 0)(define k #f)
         (display (call-with-current-continuation (lambda (c) (set! k c) 0)))
         (set! n (+ n 1))(if (< n 3) (k n))",
        "",
        &[],
        0,
        "012",
        "",
    ),
    (
        "(list (begin (write-char #\\a) 1) (begin (write-char #\\b) 2))",
        "",
        &[],
        0,
        "ab",
        "",
    ),
    (
        "(let ((p (lambda (x) x))) (write (eqv? p p)))
         (define (m) (lambda (x) x))(write (eqv? (m) (m)))",
        "",
        &[],
        0,
        "#t#f",
        "",
    ),
    ("(if #f (car 1))", "", &[], 0, "", ""),
    (
        "(letrec ((a b) (b 1)) a)",
        "",
        &[],
        1,
        "",
        "error 8 at 1:13\n",
    ),
    ("(write-char (read-char))", "x", &[], 0, "x", ""),
    ("(write-char (read-char))", "x", &[1], 3, "", "io\n"),
    (
        "(write-char (read-char))",
        "",
        &[],
        1,
        "",
        "error 1 at 1:1\n",
    ),
    (
        "(let loop ((c (read-char)))
           (if (not (eof-object? c)) (begin (write-char c) (loop (read-char)))))",
        "abc\n",
        &[],
        0,
        "abc\n",
        "",
    ),
    ("(car '())", "", &[], 1, "", "error 1 at 1:1\n"),
    (
        "(vector-ref (make-vector 3 0) 3)",
        "",
        &[],
        1,
        "",
        "error 2 at 1:1\n",
    ),
    ("(foo)", "", &[], 1, "", "error 3 at 1:2\n"),
    ("(5 5)", "", &[], 1, "", "error 4 at 1:1\n"),
    ("((lambda (x) x))", "", &[], 1, "", "error 5 at 1:1\n"),
    ("(quotient 7 0)", "", &[], 1, "", "error 7 at 1:1\n"),
    (
        "(write 1)\n (quotient 7 0)",
        "",
        &[],
        1,
        "1",
        "error 7 at 2:2\n",
    ),
    (
        "(write (case 3 ((1 2) 'low) ((3) 'HIGH) (else 0)))
         (write (modulo -7 2))(write (remainder -7 2))(write (quotient -7 2))",
        "",
        &[],
        0,
        "high1-1-3",
        "",
    ),
    (
        "(write `(1 ,(+ 1 1) ,@(list 3 4) . 5))",
        "",
        &[],
        0,
        "(1 2 3 4 . 5)",
        "",
    ),
    (
        "(write '(1 . (2 \"a\\\"b\" #\\space X #(3))))",
        "",
        &[],
        0,
        "(1 2 \"a\\\"b\" #\\space x #(3))",
        "",
    ),
    // an activation's later continuation is entered, then its earlier one, then the later one again
    (
        "(define a #f)(define b #f)(define t 0)
         (define (f) (+ (* 10 (call-with-current-continuation (lambda (c) (set! a c) 1)))
           (call-with-current-continuation (lambda (c) (if (not b) (set! b c)) 2))))
         (write (f))
         (set! t (+ t 1))
         (cond ((= t 1) (b 5)) ((= t 2) (a 3)) ((= t 3) (b 7)))",
        "",
        &[],
        0,
        "12153217",
        "",
    ),
    (
        "(write-char #\\a)(call-with-current-continuation car)",
        "",
        &[],
        1,
        "a",
        "error 1 at 0:18\n",
    ),
    (
        "(define (f a b) (write (modulo a b)) (write-char #\\space))
         (f 7 -2)(f -7 2)(f -7 -2)(f 0 5)",
        "",
        &[],
        0,
        "-1 1 -1 0 ",
        "",
    ),
    (
        "(define (f a b) (write (quotient a b)))(f -2305843009213693952 -1)",
        "",
        &[],
        1,
        "",
        "error 6 at 1:24\n",
    ),
    (
        "(string-set! (string-copy \"abc\") 0 #\\x)(write-char #\\k)",
        "",
        &[],
        0,
        "k",
        "",
    ),
];

#[test]
fn programs_run(rt: HostRuntime) -> Result<(), Fail> {
    for (source, input, failing, status, output, text) in PROGRAMS {
        for compiled in [false, true] {
            let (end, errors, written) = ended(
                &rt,
                rt.alloc(),
                source,
                "65536",
                input,
                failing,
                compiled,
            )?;
            assert_eq!(rt; end, status, "{source}");
            assert_eq!(rt; written.as_slice(), output.as_bytes(), "{source}");
            assert_eq!(rt; errors.as_slice(), text.as_bytes(), "{source}");
        }
    }
    Ok(())
}

/// Programs with their heaps, which tell what stays for good from what ends with its activation: their status,
/// their output and their errors.
const IN_HEAPS: [(&str, &str, u8, &str, &str); 6] = [
    ("(do ((i 0 (+ i 1))) ((= i 100000)))", "4096", 0, "", ""),
    (
        "(define (f n) (let ((p (cons n n))) (car p)))
         (define (loop i) (if (= i 0) 0 (begin (f i) (loop (- i 1)))))
         (loop 100000)(write-char #\\z)",
        "4096",
        0,
        "z",
        "",
    ),
    (
        "(define (f n) (cons n n))
         (define (loop i) (if (= i 0) 0 (begin (f i) (loop (- i 1)))))
         (loop 100000)(write-char #\\z)",
        "4096",
        2,
        "",
        "storage\n",
    ),
    (
        "(define (f n) (cons n n))
         (define (loop i) (if (= i 0) 0 (begin (f i) (loop (- i 1)))))
         (loop 1000)(write-char #\\z)",
        "65536",
        0,
        "z",
        "",
    ),
    (
        "(define (loop i)
           (if (= i 0) 0 (begin ((lambda (g) (g i)) (lambda (x) x)) (loop (- i 1)))))
         (loop 100000)(write-char #\\z)",
        "4096",
        0,
        "z",
        "",
    ),
    (
        "(define (f x) (+ 1 (f x)))(write-char #\\a)(f 0)",
        "4096",
        2,
        "a",
        "storage\n",
    ),
];

#[test]
fn storage_is_what_the_heap_allows(rt: HostRuntime) -> Result<(), Fail> {
    for (source, heap, status, output, text) in IN_HEAPS {
        for compiled in [false, true] {
            let (end, errors, written) = ended(&rt, rt.alloc(), source, heap, "", &[], compiled)?;
            assert_eq!(rt; end, status, "{source}");
            assert_eq!(rt; written.as_slice(), output.as_bytes(), "{source}");
            assert_eq!(rt; errors.as_slice(), text.as_bytes(), "{source}");
        }
    }
    Ok(())
}

#[test]
fn runs_are_cut_at_their_steps(rt: HostRuntime) -> Result<(), Fail> {
    let report = report_of(&rt, rt.alloc(), &["run", "in", "--steps", "1"], b"", &[])?;
    assert_eq!(rt; report.status, 75);
    assert_eq!(rt; report.text.as_slice(), b"spent 1\n".as_slice());
    Ok(())
}

/// How many ways there are to put eight queens on a board.
const QUEENS: &[u8] = b"(define (ok? q qs d)
  (or (null? qs) (and (not (= q (car qs))) (not (= q (+ (car qs) d)))
                      (not (= q (- (car qs) d))) (ok? q (cdr qs) (+ d 1)))))
(define (try n k qs)
  (if (= k 0) 1
      (let loop ((q 1) (s 0))
        (if (> q n) s
            (loop (+ q 1) (if (ok? q qs 1) (+ s (try n (- k 1) (cons q qs))) s))))))
(write (try 8 8 '()))";

#[test]
fn images_do_not_depend_on_the_workers(rt: HostRuntime) -> Result<(), Fail> {
    let one = report_of(&rt, rt.alloc(), &["compile", "in", "out"], QUEENS, &[])?;
    assert_eq!(rt; one.status, 0);
    for workers in ["2", "7", "32"] {
        let words = ["compile", "--workers", workers, "in", "out"];
        let more = report_of(&rt, rt.alloc(), &words, QUEENS, &[])?;
        assert_eq!(rt; more.out.as_slice(), one.out.as_slice(), "{workers}");
    }
    let mut shelf = MemShelf::new(rt.alloc())?;
    shelf.add("image", one.out.as_slice(), 0)?;
    let words = words_of(rt.alloc(), &["emulate", "image"])?;
    let (_status, _text, output) = run(&rt, rt.alloc(), &words, &mut shelf, b"", &[])?;
    assert_eq!(rt; output.as_slice(), b"92".as_slice());
    Ok(())
}

#[test]
fn source_may_be_the_image_too(rt: HostRuntime) -> Result<(), Fail> {
    let mut shelf = MemShelf::new(rt.alloc())?;
    shelf.add("both", b"(write-char #\\a)", ROOM)?;
    let words = words_of(rt.alloc(), &["compile", "both", "both"])?;
    let (status, _text, _output) = run(&rt, rt.alloc(), &words, &mut shelf, b"", &[])?;
    assert_eq!(rt; status, 0);
    let words = words_of(rt.alloc(), &["emulate", "both"])?;
    let (status, _text, output) = run(&rt, rt.alloc(), &words, &mut shelf, b"", &[])?;
    assert_eq!(rt; status, 0);
    assert_eq!(rt; output.as_slice(), b"a".as_slice());
    Ok(())
}

#[test]
fn source_has_a_limit(rt: HostRuntime) -> Result<(), Fail> {
    for (size, status, text) in [
        (0x10_0000usize, 0u8, ""),
        (0x10_0001, 66, "too large: source 1048577\n"),
    ] {
        let spaces = vec![in rt.alloc(); b' '; size]?;
        let report = report_of(
            &rt,
            rt.alloc(),
            &["compile", "in", "out"],
            spaces.as_slice(),
            &[],
        )?;
        assert_eq!(rt; report.status, status);
        assert_eq!(rt; report.text.as_slice(), text.as_bytes());
    }
    Ok(())
}

#[test]
fn faults_of_files_are_answered(rt: HostRuntime) -> Result<(), Fail> {
    // the calls are a begin and a read of the source, a begin of the image and two writes
    for (call, size) in [(1u64, 3usize), (2, 3), (3, 3), (4, 0), (5, 4096)] {
        let report = report_of(&rt, rt.alloc(), &["compile", "in", "out"], b"", &[call])?;
        assert_eq!(rt; report.status, 74);
        assert_eq!(rt; report.text.as_slice(), b"file fault\n".as_slice());
        assert_eq!(rt; report.out.len(), size);
        assert_eq!(rt; report.again, 0);
    }
    let report = report_of(&rt, rt.alloc(), &["compile", "no", "out"], b"", &[])?;
    assert_eq!(rt; report.status, 74);
    Ok(())
}
