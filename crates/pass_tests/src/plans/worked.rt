//! Programs with the storage plans that were worked out by hand from their facts.
//!
//! Before each plan stands the program's named form: for each procedure the variables that it binds, in their
//! order, with the steps that bind them. A closure's site is one less than its procedure's number; the other sites
//! follow in the order of their steps.

use scheme_base::Stated::{self, Closure, False, True, Unspecified};

/// A program and its storage plan. What holds of few procedures, variables, sites, blocks or steps is told of
/// these, and of the others the opposite. How values are held is told of small programs alone.
pub(super) struct Worked {
    pub(super) source: &'static [u8],
    pub(super) storage: Storage,
    pub(super) held: Option<Held>,
}

/// What continuations capture, and where variables and objects are.
pub(super) struct Storage {
    /// The procedures that a continuation may capture.
    pub(super) capturing: &'static [u32],
    /// The variables of the calls that leave a record of their frame.
    pub(super) recording: &'static [u32],
    pub(super) procedures: usize,
    /// Procedures, each with a variable that its closures keep.
    pub(super) kept: &'static [(usize, u32)],
    /// The variables that have a cell for good.
    pub(super) global: &'static [u32],
    /// The procedures whose closures are told apart.
    pub(super) compared: &'static [u32],
    pub(super) sites: usize,
    /// The sites whose objects end with the activation that makes them.
    pub(super) local: &'static [usize],
    pub(super) blocks: usize,
    /// The blocks that are not reached.
    pub(super) idle_blocks: &'static [usize],
}

/// How values are held, and which steps are reached and checked.
pub(super) struct Held {
    pub(super) variables: usize,
    /// The variables that need no slot, with their values; these alone are not held at all.
    pub(super) known: &'static [(u32, Stated)],
    /// The variables that are held as bare integers.
    pub(super) bare: &'static [u32],
    pub(super) steps: usize,
    /// The steps that are not reached.
    pub(super) idle_steps: &'static [usize],
    /// The steps whose checks are dropped.
    pub(super) unchecked: &'static [usize],
}

/// A continuation is kept by `keep`, which `mark` calls with it, and entered again by the program.
///
/// - 0: 0 `#f`, 1 `k` is defined; 2, 4, 6 closures of 1, 2, 3, each with its definition after it; 8 `twice`, 9
///   `mark`, 10 a call of 9, 11 a call of 8 with 10; 12 `k`, 13 a conditional on it, with the arms 14 `k`, 15 the
///   number 2, 16 a call of 14 with 15, and 17 the unspecified value
/// - 1, `keep`: 18 `c`; 19 the assignment of `k`, 20 the number 1, its value
/// - 2, `mark`: 21 `keep`, 22 a call of 21 with the continuation, its value
/// - 3, `twice`: 23 `x`; 24 a pair, 25 `p`, 26 its car, 27 its cdr, 28 their sum, its value
///
/// What the program captures is `mark`, which makes the continuation, `keep`, which `mark` calls, and the program
/// itself, which calls `mark` and the continuation. `twice` is called by what is captured, but is not: its pair
/// ends with it.
pub(super) const REENTERED: Worked = Worked {
    source: b"(define k #f)
(define (keep c) (set! k c) 1)
(define (mark) (call-with-current-continuation keep))
(define (twice x) (let ((p (cons x x))) (+ (car p) (cdr p))))
(twice (mark))
(if k (k 2))",
    storage: Storage {
        capturing: &[0, 1, 2],
        recording: &[10, 16],
        procedures: 4,
        kept: &[],
        global: &[],
        compared: &[],
        sites: 5,
        local: &[4],
        blocks: 6,
        idle_blocks: &[],
    },
    held: Some(Held {
        variables: 29,
        known: &[
            (0, False),
            (1, Unspecified),
            (2, Closure(1)),
            (3, Unspecified),
            (4, Closure(2)),
            (5, Unspecified),
            (6, Closure(3)),
            (7, Unspecified),
            (8, Closure(3)),
            (9, Closure(2)),
            (13, Unspecified),
            (16, Unspecified),
            (17, Unspecified),
            (19, Unspecified),
            (21, Closure(1)),
        ],
        bare: &[10, 11, 15, 20, 22, 23, 26, 27, 28],
        steps: 27,
        idle_steps: &[],
        unchecked: &[10, 11, 21, 22, 24, 25, 26],
    }),
};

/// Five procedures that make pairs, of which two end with the activation that makes them.
///
/// - 0: 0, 2, 4, 6, 8 closures of 1 to 5, each with its definition after it; 10 `sum`, 11 `lend`, 12 the number 1,
///   13 a call of 11 with 12, 14 a call of 10 with 13; 15 `nest`, 16 `hand`, 17 the number 2, 18 a call of 16 with
///   17, 19 a call of 15 with 18
/// - 1, `first`: 20 `p`; 21 its car, its value
/// - 2, `sum`: 22 `n`; 23 a pair (site 5), 24 `p`, 25 its car, 26 its cdr, 27 their sum, its value
/// - 3, `lend`: 28 `n`; 29 `first`, 30 a pair (site 6), 31 a call of 29 with 30, 32 the number 1, 33 the sum of 31
///   and 32, its value
/// - 4, `hand`: 34 `n`; 35 `first`, 36 a pair (site 7), 37 a call of 35 with 36, its value
/// - 5, `nest`: 38 `n`; 39 a pair (site 8), 40 a pair with 39 (site 9), its value
///
/// The pair of `sum` is read there alone, and that of `lend` by a call that comes back. `hand` has ended when its
/// pair is read, since that call is a tail call; the outer pair of `nest` is its result, and has the inner one.
pub(super) const PAIRS: Worked = Worked {
    source: b"(define (first p) (car p))
(define (sum n) (let ((p (cons n n))) (+ (car p) (cdr p))))
(define (lend n) (+ (first (cons n n)) 1))
(define (hand n) (first (cons n n)))
(define (nest n) (cons (cons n n) n))
(sum (lend 1))
(nest (hand 2))",
    storage: Storage {
        capturing: &[],
        recording: &[],
        procedures: 6,
        kept: &[],
        global: &[12, 13, 14, 17, 18, 19],
        compared: &[],
        sites: 10,
        local: &[5, 6],
        blocks: 6,
        idle_blocks: &[],
    },
    held: Some(Held {
        variables: 41,
        known: &[
            (0, Closure(1)),
            (1, Unspecified),
            (2, Closure(2)),
            (3, Unspecified),
            (4, Closure(3)),
            (5, Unspecified),
            (6, Closure(4)),
            (7, Unspecified),
            (8, Closure(5)),
            (9, Unspecified),
            (10, Closure(2)),
            (11, Closure(3)),
            (15, Closure(5)),
            (16, Closure(4)),
            (29, Closure(1)),
            (35, Closure(1)),
        ],
        bare: &[
            12, 13, 14, 17, 18, 21, 22, 25, 26, 27, 28, 31, 32, 33, 34, 37, 38,
        ],
        steps: 36,
        idle_steps: &[],
        unchecked: &[
            13, 14, 18, 19, 20, 21, 23, 24, 25, 27, 28, 30, 32, 33, 34, 35,
        ],
    }),
};

/// Integers alone in the slots of `count` and in the cells of the program; `either` may be given a boolean, too.
///
/// - 0: 0, 2 closures of 1, 2, each with its definition after it; 4 `count`, 5 the number 2, 6 the number 3, 7
///   their product, 8 the number 0, 9 a call of 4 with 7 and 8; 10 `either`, 11 the number 5, 12 a call of 10 with
///   11, 13 the number 1, 14 the sum of 12 and 13; 15 `either`, 16 `#t`, 17 a call of 15 with 16; 18 `#f`, 19 a
///   conditional on it, with the arms 20 the number 7, 21 its car, and 22 the unspecified value
/// - 1, `count`: 23 `i`, 24 `s`; 25 the number 0, 26 whether 23 is 25, 27 a conditional on it, its value, with the
///   arms `s`, and 28 `count`, 29 the number 1, 30 the difference of 23 and 29, 31 the sum of 24 and 23, 32 a call
///   of 28 with 30 and 31
/// - 2, `either`: 33 `x`, its value
///
/// The sum of what `either` gives stays checked, as 14 may be of `#t`. The first arm of 19 is not reached, so
/// nothing is ever bound there; nothing that is refused can be either, so the car's check is dropped.
pub(super) const INTEGERS: Worked = Worked {
    source: b"(define (count i s) (if (= i 0) s (count (- i 1) (+ s i))))
(define (either x) x)
(count (* 2 3) 0)
(+ (either 5) 1)
(either #t)
(if #f (car 7))",
    storage: Storage {
        capturing: &[],
        recording: &[],
        procedures: 3,
        kept: &[],
        global: &[5, 6, 7, 8, 9, 11, 12, 13, 14, 17],
        compared: &[],
        sites: 2,
        local: &[],
        blocks: 7,
        idle_blocks: &[1],
    },
    held: Some(Held {
        variables: 34,
        known: &[
            (0, Closure(1)),
            (1, Unspecified),
            (2, Closure(2)),
            (3, Unspecified),
            (4, Closure(1)),
            (10, Closure(2)),
            (15, Closure(2)),
            (16, True),
            (18, False),
            (19, Unspecified),
            (20, Unspecified),
            (21, Unspecified),
            (22, Unspecified),
            (28, Closure(1)),
        ],
        bare: &[5, 6, 7, 8, 9, 11, 13, 14, 23, 24, 25, 27, 29, 30, 31, 32],
        steps: 31,
        idle_steps: &[20, 21],
        unchecked: &[7, 9, 12, 17, 21, 24, 28, 29, 30],
    }),
};

/// Closures that keep a box, a procedure, a number and nothing.
///
/// - 0: 0, 2 closures of 1, 3, each with its definition after it; 4 the number 2, 5 the number 3, 6 their product,
///   7 `t`, 8 a closure of 6, 9 `show` is defined; 10 a closure of 7, 11 `thrice` is defined; 12 `counter`, 13 a
///   call of 12, 14 a call of 13; 15 `curry`, 16 a closure of 9, 17 a call of 15 with 16, 18 the number 1, 19 a
///   call of 17 with 18, 20 the number 2, 21 a call of 19 with 20; 22 to 28 the same with a closure of 10; 29
///   `show`, 30 a call of 29; 31 `thrice`, 32 the number 5, 33 a call of 31 with 32; 34 a closure of 11, 35 `p`, 36
///   whether it is itself
/// - 1, `counter`: 37 the number 0, 38 the first `n`, 39 its box (site 11), 40 a closure of 2, its value
/// - 2: 41 what 39 holds, 42 the number 1, 43 their sum, 44 the assignment, 45 what 39 holds, its value
/// - 3, `curry`: 46 `f`; 47 a closure of 4, its value
/// - 4: 48 `x`; 49 a closure of 5, its value
/// - 5: 50 `y`; 51 a call of 46 with 48 and 50, its value
/// - 6: no step; its value is 7
/// - 7, `thrice`: 52 `n`; 53 a closure of 8, 54 `add`, 55 the number 1, 56 a call of 54 with 55, 57 the number 2,
///   58 a call of 54 with 57, 59 the sum of 56 and 58, its value
/// - 8: 60 `m`; 61 the sum of 52 and 60, its value
/// - 9: 62 `a`, 63 `b`; its value is 62
/// - 10: 64 `a`, 65 `b`; its value is 65
/// - 11: 66 `x`, its value
///
/// 4 keeps `f` for 5, of which it makes closures. 6 keeps nothing, since `t` has a cell. `f` may be one of two
/// closures, so it has a slot, and each of these closures needs none. 11 is compared, so its closures have a place,
/// but none is called. The closure of 8 is called by `thrice` alone and ends with it.
pub(super) const CLOSURES: Worked = Worked {
    source: b"(define (counter) (let ((n 0)) (lambda () (set! n (+ n 1)) n)))
(define (curry f) (lambda (x) (lambda (y) (f x y))))
(define show (let ((t (* 2 3))) (lambda () t)))
(define (thrice n) (let ((add (lambda (m) (+ n m)))) (+ (add 1) (add 2))))
((counter))
(((curry (lambda (a b) a)) 1) 2)
(((curry (lambda (a b) b)) 3) 4)
(show)
(thrice 5)
(let ((p (lambda (x) x))) (eqv? p p))",
    storage: Storage {
        capturing: &[],
        recording: &[],
        procedures: 12,
        kept: &[(2, 39), (4, 46), (5, 46), (5, 48), (8, 52)],
        global: &[
            4, 5, 6, 7, 13, 14, 17, 18, 19, 20, 21, 24, 25, 26, 27, 28, 30, 32, 33, 34, 35, 36,
        ],
        compared: &[11],
        sites: 12,
        local: &[7],
        blocks: 12,
        idle_blocks: &[11],
    },
    held: Some(Held {
        variables: 67,
        known: &[
            (0, Closure(1)),
            (1, Unspecified),
            (2, Closure(3)),
            (3, Unspecified),
            (8, Closure(6)),
            (9, Unspecified),
            (10, Closure(7)),
            (11, Unspecified),
            (12, Closure(1)),
            (15, Closure(3)),
            (16, Closure(9)),
            (22, Closure(3)),
            (23, Closure(10)),
            (29, Closure(6)),
            (31, Closure(7)),
            (44, Unspecified),
            (66, Unspecified),
        ],
        bare: &[
            4, 5, 6, 7, 14, 18, 20, 21, 25, 27, 28, 30, 32, 33, 37, 38, 41, 42, 43, 45, 48, 50, 51,
            52, 55, 56, 57, 58, 59, 60, 61, 62, 63, 64, 65,
        ],
        steps: 57,
        idle_steps: &[],
        unchecked: &[
            6, 13, 14, 17, 19, 21, 24, 26, 28, 30, 33, 36, 43, 48, 52, 54, 55, 56,
        ],
    }),
};

/// `tables/err_apply`: the library's `car` is applied to no list.
///
/// - 0: 0 a closure of 1, with its definition after it; 2 `car`, 3 the number 5, 4 a call of 2 with the items of 3
/// - 1, `car`: 5 `x`; 6 its car, its value
///
/// A call with the items of a list keeps its checks; it may enter `car`, but nothing is ever bound there.
pub(super) const APPLIED: Worked = Worked {
    source: b"(apply car 5)",
    storage: Storage {
        capturing: &[],
        recording: &[],
        procedures: 2,
        kept: &[],
        global: &[3],
        compared: &[],
        sites: 1,
        local: &[],
        blocks: 2,
        idle_blocks: &[],
    },
    held: Some(Held {
        variables: 7,
        known: &[
            (0, Closure(1)),
            (1, Unspecified),
            (2, Closure(1)),
            (4, Unspecified),
            (5, Unspecified),
            (6, Unspecified),
        ],
        bare: &[3],
        steps: 6,
        idle_steps: &[],
        unchecked: &[5],
    }),
};

/// `tables/err_eq1`: the library's `=` takes two operands at least.
///
/// - 0: 0, 2 closures of 1, 2, each with its definition after it; 4 `=`, 5 the number 1, 6 a call of 4 with 5
/// - 1, `%chain`: 7 `f`, 8 `a`, 9 `b`, 10 `r`; 11 a call of 7 with 8 and 9, 12 a conditional on it, its value, with
///   the arms 13 whether 10 is empty, 14 a conditional on it, with the arms 15 `#t`, and 16 `%chain`, 17 the car of
///   10, 18 its cdr, 19 a call of 16 with 7, 9, 17 and 18; and 20 `#f`
/// - 2, `=`: 21 `a`, 22 `b`, 23 `r` (site 3); 24 `%chain`, 25 a closure of 3, 26 a call of 24 with 25, 21, 22 and
///   23
/// - 3: 27 `a`, 28 `b`; 29 whether they are equal, its value
///
/// The call is refused, so nothing but the program itself is reached; its check is the only one of a call that
/// stands.
pub(super) const REFUSED: Worked = Worked {
    source: b"(= 1)",
    storage: Storage {
        capturing: &[],
        recording: &[],
        procedures: 4,
        kept: &[],
        global: &[5],
        compared: &[],
        sites: 4,
        local: &[2, 3],
        blocks: 8,
        idle_blocks: &[1, 2, 3, 4, 5, 6, 7],
    },
    held: Some(Held {
        variables: 30,
        known: &[
            (0, Closure(1)),
            (1, Unspecified),
            (2, Closure(2)),
            (3, Unspecified),
            (4, Closure(2)),
            (6, Unspecified),
            (7, Unspecified),
            (8, Unspecified),
            (9, Unspecified),
            (10, Unspecified),
            (11, Unspecified),
            (12, Unspecified),
            (13, Unspecified),
            (14, Unspecified),
            (15, Unspecified),
            (16, Unspecified),
            (17, Unspecified),
            (18, Unspecified),
            (19, Unspecified),
            (20, Unspecified),
            (21, Unspecified),
            (22, Unspecified),
            (23, Unspecified),
            (24, Unspecified),
            (25, Unspecified),
            (26, Unspecified),
            (27, Unspecified),
            (28, Unspecified),
            (29, Unspecified),
        ],
        bare: &[5],
        steps: 21,
        idle_steps: &[7, 8, 9, 10, 11, 12, 13, 14, 15, 16, 17, 18, 19, 20],
        unchecked: &[7, 9, 13, 14, 15, 19, 20],
    }),
};

/// `tables/dynamic`: exits by continuations, each with a thunk that is called afterwards.
///
/// 1 to 18 are the library's, 19 is `assert`, 20 `with-cleanup`, 21 what it calls with `k`, 22 `throw`, and 23 to
/// 26 are the four thunks in their order. 20 is called in the program as variable 48 and in 23 as 350, calls 21
/// with its continuation as 325, and 22 is called in 24 as 355: these calls leave records, since they are no tail
/// calls. 21 calls 23 and 24 last, so it leaves none. 25 and 26 are called by 20, which goes on, and enter no
/// continuation. 21 keeps `thunk`. Nothing is local: what the captured procedures and the program make stays, and
/// the lists of the library's are handed on by tail calls or given back.
pub(super) const EXITS: Worked = Worked {
    source: b"
(define (assert x) (if (not x) (begin (display \"failed\") (newline))))
(define winds '())
(define (with-cleanup thunk after) (let ((v (call-with-current-continuation (lambda (k) (set! winds (cons k winds)) (thunk))))) (set! winds (cdr winds)) (after) v))
(define (throw x) ((car winds) (list 'thrown x)))
(write (with-cleanup (lambda () (+ 1 (with-cleanup (lambda () (* 2 (throw 5))) (lambda () (display \"inner \")))) ) (lambda () (display \"outer \"))))
",
    storage: Storage {
        capturing: &[0, 20, 21, 22, 23, 24],
        recording: &[48, 325, 350, 355],
        procedures: 27,
        kept: &[(21, 322)],
        global: &[],
        compared: &[],
        sites: 35,
        local: &[],
        blocks: 87,
        idle_blocks: &[19, 42, 75, 76, 77, 78, 79],
    },
    held: None,
};

/// `tables/closures`: counters, composed and curried procedures, and a fixed point.
///
/// 1 to 20 are the library's; 21 is `make-counter` and 22 its counter, 23 `compose` with 24 and 25, 26 and 27 are
/// the two that are composed, 28 is `curry` with 29 and 30, 31 `y` with 32 and 33, and 34 is the procedure of
/// `fact` with 35. The counter keeps its box, 25 the list of procedures, and 30 `x`; what else is free somewhere is
/// one closure that keeps nothing, so it is known.
pub(super) const COUNTERS: Worked = Worked {
    source: b"
(define (make-counter) (let ((n 0)) (lambda () (set! n (+ n 1)) n)))
(define a (make-counter)) (define b (make-counter))
(a) (a) (b)
(write (list (a) (b))) (newline)
(define (compose . fs) (if (null? fs) (lambda (x) x) (lambda (x) ((car fs) ((apply compose (cdr fs)) x)))))
(write ((compose (lambda (x) (* x 2)) (lambda (x) (+ x 1))) 5)) (newline)
(define (curry f) (lambda (x) (lambda (y) (f x y))))
(write (((curry -) 10) 3)) (newline)
(define y (lambda (f) ((lambda (x) (x x)) (lambda (x) (f (lambda (a) ((x x) a)))))))
(write ((y (lambda (fact) (lambda (n) (if (= n 0) 1 (* n (fact (- n 1))))))) 15))
",
    storage: Storage {
        capturing: &[],
        recording: &[],
        procedures: 36,
        kept: &[(22, 380), (25, 387), (30, 408)],
        global: &[
            41, 44, 46, 47, 48, 49, 50, 51, 53, 54, 55, 56, 57, 58, 60, 61, 71, 72, 73, 83, 84, 85,
            86, 96, 97,
        ],
        compared: &[],
        sites: 45,
        local: &[],
        blocks: 100,
        idle_blocks: &[36, 44, 48],
    },
    held: None,
};

/// `tables/do_loops`: loops, of which one makes closures and one has a loop inside.
///
/// 1 to 26 are the library's; 27 to 31 are the loops of the first five lines with loops, 32 is made by 31, 33 is
/// what `map` calls, 34 and 35 are loops, 36 is the loop in 35, and 37 and 38 are those of the last line. 32 keeps
/// `i`; 36 keeps the `i` of the loop around it, and since it keeps that it has a slot, and keeps itself. The
/// closure of 36 ends with 35 (site 35), and so would the lists of the operands that `map` and `make-vector` are
/// given beyond the first ones (38, 39).
pub(super) const LOOPS: Worked = Worked {
    source: b"
(write (let ((vec (make-vector 5))) (do ((i 0 (+ i 1))) ((= i 5) vec) (vector-set! vec i i))))
(write (let ((x '(1 3 5 7 9))) (do ((x x (cdr x)) (sum 0 (+ sum (car x)))) ((null? x) sum))))
(write (do ((i 0 (+ i 1)) (k 7)) ((= i 3) (write i) k)))
(write (let loop ((numbers '(3 -2 1 6 -5)) (nonneg '()) (neg '()))
  (cond ((null? numbers) (list nonneg neg))
        ((>= (car numbers) 0) (loop (cdr numbers) (cons (car numbers) nonneg) neg))
        ((< (car numbers) 0) (loop (cdr numbers) nonneg (cons (car numbers) neg))))))
(newline)
(define procs (do ((i 0 (+ i 1)) (l '() (cons (lambda () i) l))) ((= i 3) l)))
(write (map (lambda (p) (p)) procs))
(do ((i 0 (+ i 1))) ((= i 3)) (write i) (write-char #\\,))
(let loop ((i 0)) (if (< i 3) (begin (let loop ((j 0)) (if (< j i) (begin (write-char #\\*) (loop (+ j 1))))) (write-char #\\|) (loop (+ i 1)))))
(write (let f () 5)) (write (do () (#t 1 2)))
",
    storage: Storage {
        capturing: &[],
        recording: &[],
        procedures: 39,
        kept: &[(32, 491), (36, 515), (36, 519)],
        global: &[
            52, 53, 54, 56, 57, 60, 61, 63, 64, 68, 69, 70, 74, 77, 82, 84, 89, 90, 93, 96, 100,
            104,
        ],
        compared: &[],
        sites: 54,
        local: &[35, 38, 39],
        blocks: 133,
        idle_blocks: &[8, 52, 60, 64, 132],
    },
    held: None,
};
