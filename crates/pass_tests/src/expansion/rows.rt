//! Programs with the texts of their cores, or the rule that is broken and its place.

pub(super) const SIMPLE: [(&[u8], &[u8]); 29] = [
    (b"", b""),
    (b"5", b"(const 5)\n"),
    (b"#t", b"(const #t)\n"),
    (b"\"a\\\"b\"", b"(const \"a\\\"b\")\n"),
    (b"#\\a", b"(const #\\a)\n"),
    (b"x", b"(ref x)\n"),
    (b"%car", b"(ref %car)\n"),
    (
        b"car",
        b"(define lib:car (lambda (x) #f (prim %car ((ref x)))))\n(ref lib:car)\n",
    ),
    (b"'x", b"(const x)\n"),
    (b"'()", b"(const ())\n"),
    (b"'(1 (a . 2) #(b))", b"(const (1 (a . 2) #(b)))\n"),
    (b"''a", b"(const (quote a))\n"),
    (b"(quote if)", b"(const if)\n"),
    (
        b"(if 1 2)",
        b"(if (const 1) (const 2) (const #<unspecified>))\n",
    ),
    (b"(if 1 2 3)", b"(if (const 1) (const 2) (const 3))\n"),
    (b"(set! x 1)", b"(set x (const 1))\n"),
    (b"(begin 1)", b"(seq ((const 1)))\n"),
    (b"(begin 1 2)", b"(seq ((const 1) (const 2)))\n"),
    (b"(begin)", b""),
    (
        b"(begin (define a 1) (begin) (begin (define b 2)))",
        b"(define a (const 1))\n(define b (const 2))\n",
    ),
    (b"(f)", b"(call (ref f) ())\n"),
    (b"(f 1 x)", b"(call (ref f) ((const 1) (ref x)))\n"),
    (b"((f) 1)", b"(call (call (ref f) ()) ((const 1)))\n"),
    (b"(define x 1)", b"(define x (const 1))\n"),
    (b"(define (f x) x)", b"(define f (lambda (x) #f (ref x)))\n"),
    (b"(define (f . x) x)", b"(define f (lambda () x (ref x)))\n"),
    (
        b"(define (f a . b) 1 b)",
        b"(define f (lambda (a) b (seq ((const 1) (ref b)))))\n",
    ),
    (
        b"(define x y) (define y x)",
        b"(define x (ref y))\n(define y (ref x))\n",
    ),
    (b"(define begin 1)", b"rule 1 at 1:9"),
];

pub(super) const BINDING: [(&[u8], &[u8]); 29] = [
    (b"(lambda (x) x)", b"(lambda (x) #f (ref x))\n"),
    (b"(lambda x x)", b"(lambda () x (ref x))\n"),
    (b"(lambda (a . b) b)", b"(lambda (a) b (ref b))\n"),
    (
        b"(lambda () 1 2)",
        b"(lambda () #f (seq ((const 1) (const 2))))\n",
    ),
    (
        b"(let ((x 1)) x)",
        b"(call (lambda (x) #f (ref x)) ((const 1)))\n",
    ),
    (b"(let () 1)", b"(call (lambda () #f (const 1)) ())\n"),
    (
        b"(let ((x 1) (y x)) y)",
        b"(call (lambda (x y) #f (ref y)) ((const 1) (ref x)))\n",
    ),
    (b"(let* () 1)", b"(call (lambda () #f (const 1)) ())\n"),
    (
        b"(let* ((x 1) (y x)) y)",
        b"(call (lambda (x) #f (call (lambda (y) #f (ref y)) ((ref x)))) ((const 1)))\n",
    ),
    (
        b"(let* ((x 1) (x x)) x)",
        b"(call (lambda (x) #f (call (lambda (x) #f (ref x)) ((ref x)))) ((const 1)))\n",
    ),
    (b"(letrec () 1)", b"(fix () () (const 1))\n"),
    (
        b"(letrec ((f (lambda () f))) f)",
        b"(fix (f) ((lambda () #f (ref f))) (ref f))\n",
    ),
    (
        b"(letrec ((x 1)) x)",
        b"(call (lambda (x) #f (call (lambda (.1) #f (seq ((set x (ref .1)) (call (lambda () #f (ref x)) ())))) ((const 1)))) ((const #<undefined>)))\n",
    ),
    (
        b"(letrec ((f (lambda () 1))) (set! f 2))",
        b"(call (lambda (f) #f (call (lambda (.1) #f (seq ((set f (ref .1)) (call (lambda () #f (set f (const 2))) ())))) ((lambda () #f (const 1))))) ((const #<undefined>)))\n",
    ),
    (
        b"(letrec ((f (lambda (f) (set! f 2)))) f)",
        b"(fix (f) ((lambda (f) #f (set f (const 2)))) (ref f))\n",
    ),
    (
        b"(letrec ((f (begin (lambda () 1)))) f)",
        b"(call (lambda (f) #f (call (lambda (.1) #f (seq ((set f (ref .1)) (call (lambda () #f (ref f)) ())))) ((seq ((lambda () #f (const 1))))))) ((const #<undefined>)))\n",
    ),
    (
        b"(letrec ((a 1) (b 2)) a)",
        b"(call (lambda (a b) #f (call (lambda (.1 .2) #f (seq ((set a (ref .1)) (set b (ref .2)) (call (lambda () #f (ref a)) ())))) ((const 1) (const 2)))) ((const #<undefined>) (const #<undefined>)))\n",
    ),
    (
        b"(lambda () (define a 1) a)",
        b"(lambda () #f (call (lambda (a) #f (call (lambda (.1) #f (seq ((set a (ref .1)) (call (lambda () #f (ref a)) ())))) ((const 1)))) ((const #<undefined>))))\n",
    ),
    (
        b"(lambda () (define (f) 1) (f))",
        b"(lambda () #f (fix (f) ((lambda () #f (const 1))) (call (ref f) ())))\n",
    ),
    (
        b"(lambda () (begin (define (f) 1)) (begin) 1 2)",
        b"(lambda () #f (fix (f) ((lambda () #f (const 1))) (seq ((const 1) (const 2)))))\n",
    ),
    (
        b"(lambda () (begin 1))",
        b"(lambda () #f (seq ((const 1))))\n",
    ),
    (
        b"(let f ((x 1)) (f x))",
        b"(call (fix (f) ((lambda (x) #f (call (ref f) ((ref x))))) (ref f)) ((const 1)))\n",
    ),
    (
        b"(let f ((f 1)) f)",
        b"(call (fix (f) ((lambda (f) #f (ref f))) (ref f)) ((const 1)))\n",
    ),
    (
        b"(let f ((x 1)) (set! f x))",
        b"(call (call (lambda (f) #f (call (lambda (.1) #f (seq ((set f (ref .1)) (call (lambda () #f (ref f)) ())))) ((lambda (x) #f (set f (ref x)))))) ((const #<undefined>))) ((const 1)))\n",
    ),
    (
        b"(let f () f)",
        b"(call (fix (f) ((lambda () #f (ref f))) (ref f)) ())\n",
    ),
    (
        b"(do ((i 0 (f i)) (k 7)) (a i) (g))",
        b"(call (fix (.1) ((lambda (i k) #f (if (ref a) (seq ((ref i))) (seq ((call (ref g) ()) (call (ref .1) ((call (ref f) ((ref i))) (ref k)))))))) (ref .1)) ((const 0) (const 7)))\n",
    ),
    (
        b"(do () (a))",
        b"(call (fix (.1) ((lambda () #f (if (ref a) (const #<unspecified>) (seq ((call (ref .1) ())))))) (ref .1)) ())\n",
    ),
    (
        b"(do () (a 1 2) 3)",
        b"(call (fix (.1) ((lambda () #f (if (ref a) (seq ((const 1) (const 2))) (seq ((const 3) (call (ref .1) ())))))) (ref .1)) ())\n",
    ),
    (
        b"(do ((i 0)) (i) (set! i 1))",
        b"(call (fix (.1) ((lambda (i) #f (if (ref i) (const #<unspecified>) (seq ((set i (const 1)) (call (ref .1) ((ref i)))))))) (ref .1)) ((const 0)))\n",
    ),
];

pub(super) const CHOICE: [(&[u8], &[u8]); 19] = [
    (
        b"(cond (1 2))",
        b"(if (const 1) (seq ((const 2))) (const #<unspecified>))\n",
    ),
    (
        b"(cond (1))",
        b"(call (lambda (.1) #f (if (ref .1) (ref .1) (const #<unspecified>))) ((const 1)))\n",
    ),
    (
        b"(cond (1 => f))",
        b"(call (lambda (.1) #f (if (ref .1) (call (ref f) ((ref .1))) (const #<unspecified>))) ((const 1)))\n",
    ),
    (
        b"(cond (1 => -) (else 2))",
        b"(call (lambda (.1) #f (if (ref .1) (call (lambda (.2) #f (prim %- ((const 0) (ref .2)))) ((ref .1))) (seq ((const 2))))) ((const 1)))\n",
    ),
    (
        b"(cond (1 => car) (else 2 3))",
        b"(call (lambda (.1) #f (if (ref .1) (prim %car ((ref .1))) (seq ((const 2) (const 3))))) ((const 1)))\n",
    ),
    (b"(cond (else 1 2))", b"(seq ((const 1) (const 2)))\n"),
    (
        b"(cond (a 1) (b) (c => f) (else 2))",
        b"(if (ref a) (seq ((const 1))) (call (lambda (.1) #f (if (ref .1) (ref .1) (call (lambda (.2) #f (if (ref .2) (call (ref f) ((ref .2))) (seq ((const 2))))) ((ref c))))) ((ref b))))\n",
    ),
    (
        b"(cond ((or a b)))",
        b"(call (lambda (.1) #f (if (ref .1) (ref .1) (const #<unspecified>))) ((call (lambda (.2) #f (if (ref .2) (ref .2) (ref b))) ((ref a)))))\n",
    ),
    (
        b"(case 1 ((2) 3))",
        b"(call (lambda (.1) #f (if (prim %eqv? ((ref .1) (const 2))) (seq ((const 3))) (const #<unspecified>))) ((const 1)))\n",
    ),
    (
        b"(case x ((a b) 1) (() 2) (else 3 4))",
        b"(call (lambda (.1) #f (if (call (lambda (.2) #f (if (ref .2) (ref .2) (prim %eqv? ((ref .1) (const b))))) ((prim %eqv? ((ref .1) (const a))))) (seq ((const 1))) (if (const #f) (seq ((const 2))) (seq ((const 3) (const 4)))))) ((ref x)))\n",
    ),
    (
        b"(case x ((1 2 3) 4))",
        b"(call (lambda (.1) #f (if (call (lambda (.2) #f (if (ref .2) (ref .2) (call (lambda (.3) #f (if (ref .3) (ref .3) (prim %eqv? ((ref .1) (const 3))))) ((prim %eqv? ((ref .1) (const 2))))))) ((prim %eqv? ((ref .1) (const 1))))) (seq ((const 4))) (const #<unspecified>))) ((ref x)))\n",
    ),
    (
        b"(case (or a b) (else 1))",
        b"(call (lambda (.1) #f (seq ((const 1)))) ((call (lambda (.2) #f (if (ref .2) (ref .2) (ref b))) ((ref a)))))\n",
    ),
    (b"(and)", b"(const #t)\n"),
    (b"(and 1)", b"(const 1)\n"),
    (
        b"(and 1 2 3)",
        b"(if (const 1) (if (const 2) (const 3) (const #f)) (const #f))\n",
    ),
    (b"(or)", b"(const #f)\n"),
    (b"(or 1)", b"(const 1)\n"),
    (
        b"(or 1 2 3)",
        b"(call (lambda (.1) #f (if (ref .1) (ref .1) (call (lambda (.2) #f (if (ref .2) (ref .2) (const 3))) ((const 2))))) ((const 1)))\n",
    ),
    (
        b"(lambda (t) (or 1 t))",
        b"(lambda (t) #f (call (lambda (.1) #f (if (ref .1) (ref .1) (ref t))) ((const 1))))\n",
    ),
];

pub(super) const TEMPLATES: [(&[u8], &[u8]); 23] = [
    (b"`x", b"(const x)\n"),
    (b"`(1 (2 #(3)) . x)", b"(const (1 (2 #(3)) . x))\n"),
    (b"`,x", b"(ref x)\n"),
    (b"`,5", b"(const 5)\n"),
    (
        b"`(1 ,x)",
        b"(prim %cons ((const 1) (prim %cons ((ref x) (const ())))))\n",
    ),
    (b"`(,x 1 2)", b"(prim %cons ((ref x) (const (1 2))))\n"),
    (b"`(1 . ,x)", b"(prim %cons ((const 1) (ref x)))\n"),
    (b"`(,x . 1)", b"(prim %cons ((ref x) (const 1)))\n"),
    (
        b"`((a ,x) b . c)",
        b"(prim %cons ((prim %cons ((const a) (prim %cons ((ref x) (const ()))))) (const (b . c))))\n",
    ),
    (
        b"`(,@x)",
        b"(define lib:%join (lambda (a b) #f (if (prim %null? ((ref a))) (ref b) (prim %cons ((prim %car ((ref a))) (call (ref lib:%join) ((prim %cdr ((ref a))) (ref b))))))))\n(call (ref lib:%join) ((ref x) (const ())))\n",
    ),
    (
        b"`(f ,@x)",
        b"(define lib:%join (lambda (a b) #f (if (prim %null? ((ref a))) (ref b) (prim %cons ((prim %car ((ref a))) (call (ref lib:%join) ((prim %cdr ((ref a))) (ref b))))))))\n(prim %cons ((const f) (call (ref lib:%join) ((ref x) (const ())))))\n",
    ),
    (
        b"`(,@x . 1)",
        b"(define lib:%join (lambda (a b) #f (if (prim %null? ((ref a))) (ref b) (prim %cons ((prim %car ((ref a))) (call (ref lib:%join) ((prim %cdr ((ref a))) (ref b))))))))\n(call (ref lib:%join) ((ref x) (const 1)))\n",
    ),
    (
        b"`(,@x y)",
        b"(define lib:%join (lambda (a b) #f (if (prim %null? ((ref a))) (ref b) (prim %cons ((prim %car ((ref a))) (call (ref lib:%join) ((prim %cdr ((ref a))) (ref b))))))))\n(call (ref lib:%join) ((ref x) (const (y))))\n",
    ),
    (
        b"`#(1 ,x)",
        b"(define lib:%opt (lambda (r d) #f (if (prim %null? ((ref r))) (ref d) (if (prim %null? ((prim %cdr ((ref r))))) (prim %car ((ref r))) (call (lambda () #f (ref d)) ((ref d)))))))\n(define lib:length (lambda (l) #f (call (ref lib:%length) ((ref l) (const 0)))))\n(define lib:%length (lambda (l n) #f (if (prim %null? ((ref l))) (ref n) (call (ref lib:%length) ((prim %cdr ((ref l))) (prim %+ ((ref n) (const 1))))))))\n(define lib:make-vector (lambda (n) r (prim %make-vector ((ref n) (call (ref lib:%opt) ((ref r) (const 0)))))))\n(define lib:list->vector (lambda (l) #f (call (lambda (v) #f (seq ((call (ref lib:%vput) ((ref v) (ref l) (const 0))) (ref v)))) ((call (ref lib:make-vector) ((call (ref lib:length) ((ref l)))))))))\n(define lib:%vput (lambda (v l i) #f (if (if (prim %null? ((ref l))) (const #f) (const #t)) (seq ((prim %vector-set! ((ref v) (ref i) (prim %car ((ref l))))) (call (ref lib:%vput) ((ref v) (prim %cdr ((ref l))) (prim %+ ((ref i) (const 1))))))) (const #<unspecified>))))\n(call (ref lib:list->vector) ((prim %cons ((const 1) (prim %cons ((ref x) (const ())))))))\n",
    ),
    (
        b"`#(1 unquote x)",
        b"(define lib:%opt (lambda (r d) #f (if (prim %null? ((ref r))) (ref d) (if (prim %null? ((prim %cdr ((ref r))))) (prim %car ((ref r))) (call (lambda () #f (ref d)) ((ref d)))))))\n(define lib:length (lambda (l) #f (call (ref lib:%length) ((ref l) (const 0)))))\n(define lib:%length (lambda (l n) #f (if (prim %null? ((ref l))) (ref n) (call (ref lib:%length) ((prim %cdr ((ref l))) (prim %+ ((ref n) (const 1))))))))\n(define lib:make-vector (lambda (n) r (prim %make-vector ((ref n) (call (ref lib:%opt) ((ref r) (const 0)))))))\n(define lib:list->vector (lambda (l) #f (call (lambda (v) #f (seq ((call (ref lib:%vput) ((ref v) (ref l) (const 0))) (ref v)))) ((call (ref lib:make-vector) ((call (ref lib:length) ((ref l)))))))))\n(define lib:%vput (lambda (v l i) #f (if (if (prim %null? ((ref l))) (const #f) (const #t)) (seq ((prim %vector-set! ((ref v) (ref i) (prim %car ((ref l))))) (call (ref lib:%vput) ((ref v) (prim %cdr ((ref l))) (prim %+ ((ref i) (const 1))))))) (const #<unspecified>))))\n(call (ref lib:list->vector) ((prim %cons ((const 1) (ref x)))))\n",
    ),
    (
        b"`(#(,x 2 3))",
        b"(define lib:%opt (lambda (r d) #f (if (prim %null? ((ref r))) (ref d) (if (prim %null? ((prim %cdr ((ref r))))) (prim %car ((ref r))) (call (lambda () #f (ref d)) ((ref d)))))))\n(define lib:length (lambda (l) #f (call (ref lib:%length) ((ref l) (const 0)))))\n(define lib:%length (lambda (l n) #f (if (prim %null? ((ref l))) (ref n) (call (ref lib:%length) ((prim %cdr ((ref l))) (prim %+ ((ref n) (const 1))))))))\n(define lib:make-vector (lambda (n) r (prim %make-vector ((ref n) (call (ref lib:%opt) ((ref r) (const 0)))))))\n(define lib:list->vector (lambda (l) #f (call (lambda (v) #f (seq ((call (ref lib:%vput) ((ref v) (ref l) (const 0))) (ref v)))) ((call (ref lib:make-vector) ((call (ref lib:length) ((ref l)))))))))\n(define lib:%vput (lambda (v l i) #f (if (if (prim %null? ((ref l))) (const #f) (const #t)) (seq ((prim %vector-set! ((ref v) (ref i) (prim %car ((ref l))))) (call (ref lib:%vput) ((ref v) (prim %cdr ((ref l))) (prim %+ ((ref i) (const 1))))))) (const #<unspecified>))))\n(prim %cons ((call (ref lib:list->vector) ((prim %cons ((ref x) (const (2 3)))))) (const ())))\n",
    ),
    (
        b"`(1 `(2 ,x))",
        b"(const (1 (quasiquote (2 (unquote x)))))\n",
    ),
    (
        b"`(1 `(2 ,(3 ,x)))",
        b"(prim %cons ((const 1) (prim %cons ((prim %cons ((const quasiquote) (prim %cons ((prim %cons ((const 2) (prim %cons ((prim %cons ((const unquote) (prim %cons ((prim %cons ((const 3) (prim %cons ((ref x) (const ()))))) (const ()))))) (const ()))))) (const ()))))) (const ())))))\n",
    ),
    (
        b"`(1 `,@(2 ,x))",
        b"(const (1 (quasiquote (unquote-splicing (2 (unquote x))))))\n",
    ),
    (b"`(unquote)", b"(const (unquote))\n"),
    (b"`(unquote a b)", b"(const (unquote a b))\n"),
    (
        b"`(a unquote-splicing b)",
        b"(const (a unquote-splicing b))\n",
    ),
    (b"`(quasiquote)", b"(const (quasiquote))\n"),
];

pub(super) const CALLS: [(&[u8], &[u8]); 35] = [
    (b"(car x)", b"(prim %car ((ref x)))\n"),
    (b"(cons 1 2)", b"(prim %cons ((const 1) (const 2)))\n"),
    (b"(eq? 1 2)", b"(prim %eqv? ((const 1) (const 2)))\n"),
    (
        b"(car)",
        b"(define lib:car (lambda (x) #f (prim %car ((ref x)))))\n(call (ref lib:car) ())\n",
    ),
    (
        b"(car 1 2)",
        b"(define lib:car (lambda (x) #f (prim %car ((ref x)))))\n(call (ref lib:car) ((const 1) (const 2)))\n",
    ),
    (b"(read-char)", b"(prim %read-char ())\n"),
    (
        b"(vector-set! a 1 2)",
        b"(prim %vector-set! ((ref a) (const 1) (const 2)))\n",
    ),
    (
        b"(call-with-current-continuation f)",
        b"(prim %call/cc ((ref f)))\n",
    ),
    (b"(apply f x)", b"(prim %apply ((ref f) (ref x)))\n"),
    (b"(not x)", b"(if (ref x) (const #f) (const #t))\n"),
    (b"(+)", b"(const 0)\n"),
    (b"(*)", b"(const 1)\n"),
    (
        b"(+ a)",
        b"(call (lambda (.1) #f (prim %+ ((const 0) (ref .1)))) ((ref a)))\n",
    ),
    (
        b"(* a)",
        b"(call (lambda (.1) #f (prim %* ((const 1) (ref .1)))) ((ref a)))\n",
    ),
    (
        b"(- a)",
        b"(call (lambda (.1) #f (prim %- ((const 0) (ref .1)))) ((ref a)))\n",
    ),
    (b"(+ a b)", b"(prim %+ ((ref a) (ref b)))\n"),
    (
        b"(- a b c)",
        b"(call (lambda (.1 .2 .3) #f (prim %- ((prim %- ((ref .1) (ref .2))) (ref .3)))) ((ref a) (ref b) (ref c)))\n",
    ),
    (b"(= a b)", b"(prim %= ((ref a) (ref b)))\n"),
    (b"(< a b)", b"(prim %< ((ref a) (ref b)))\n"),
    (
        b"(> a b)",
        b"(call (lambda (.1 .2) #f (prim %< ((ref .2) (ref .1)))) ((ref a) (ref b)))\n",
    ),
    (
        b"(<= a b)",
        b"(call (lambda (.1 .2) #f (if (prim %< ((ref .2) (ref .1))) (const #f) (const #t))) ((ref a) (ref b)))\n",
    ),
    (
        b"(>= a b)",
        b"(call (lambda (.1 .2) #f (if (prim %< ((ref .1) (ref .2))) (const #f) (const #t))) ((ref a) (ref b)))\n",
    ),
    (
        b"(< a b c)",
        b"(call (lambda (.1 .2 .3) #f (if (prim %< ((ref .1) (ref .2))) (prim %< ((ref .2) (ref .3))) (const #f))) ((ref a) (ref b) (ref c)))\n",
    ),
    (
        b"(> a b c)",
        b"(call (lambda (.1 .2 .3) #f (if (prim %< ((ref .2) (ref .1))) (prim %< ((ref .3) (ref .2))) (const #f))) ((ref a) (ref b) (ref c)))\n",
    ),
    (b"(list)", b"(const ())\n"),
    (
        b"(list a)",
        b"(call (lambda (.1) #f (prim %cons ((ref .1) (const ())))) ((ref a)))\n",
    ),
    (
        b"(list a b)",
        b"(call (lambda (.1 .2) #f (prim %cons ((ref .1) (prim %cons ((ref .2) (const ())))))) ((ref a) (ref b)))\n",
    ),
    (
        b"(list (+ a))",
        b"(call (lambda (.1) #f (prim %cons ((ref .1) (const ())))) ((call (lambda (.2) #f (prim %+ ((const 0) (ref .2)))) ((ref a)))))\n",
    ),
    (
        b"(lambda (car) (car 1))",
        b"(lambda (car) #f (call (ref car) ((const 1))))\n",
    ),
    (b"(%car x)", b"(call (ref %car) ((ref x)))\n"),
    (
        b"(define car 1)",
        b"(define lib:car (lambda (x) #f (prim %car ((ref x)))))\n(define car (ref lib:car))\n(define car (const 1))\n",
    ),
    (
        b"(set! car 1) (car 2)",
        b"(define lib:car (lambda (x) #f (prim %car ((ref x)))))\n(define car (ref lib:car))\n(set car (const 1))\n(call (ref car) ((const 2)))\n",
    ),
    (
        b"(let ((car 1)) (set! car 2)) (car 3)",
        b"(call (lambda (car) #f (set car (const 2))) ((const 1)))\n(prim %car ((const 3)))\n",
    ),
    (
        b"(cdr 1) (define cdr car) (define car cdr)",
        b"(define lib:car (lambda (x) #f (prim %car ((ref x)))))\n(define lib:cdr (lambda (x) #f (prim %cdr ((ref x)))))\n(define cdr (ref lib:cdr))\n(define car (ref lib:car))\n(call (ref cdr) ((const 1)))\n(define cdr (ref car))\n(define car (ref cdr))\n",
    ),
    (
        b"(caar x)",
        b"(define lib:caar (lambda (p) #f (prim %car ((prim %car ((ref p)))))))\n(call (ref lib:caar) ((ref x)))\n",
    ),
];

pub(super) const FAULTS_OF_RULES_1_TO_4: [(&[u8], &[u8]); 37] = [
    (b"if", b"rule 1 at 1:1"),
    (b"(f else)", b"rule 1 at 1:4"),
    (b"(else 1)", b"rule 1 at 1:2"),
    (b"(=> 1)", b"rule 1 at 1:2"),
    (b"(set! if 1)", b"rule 1 at 1:7"),
    (b"(lambda (x if) x)", b"rule 1 at 1:12"),
    (b"(let ((x (if)) (if 1)) x)", b"rule 5 at 1:10"),
    (b"(cond (a b => c))", b"rule 1 at 1:12"),
    (b"(cond (else => f))", b"rule 1 at 1:13"),
    (b"(case 1 ((2) => f))", b"rule 1 at 1:14"),
    (b"(cond (=> 1))", b"rule 1 at 1:8"),
    (b"(let if ((x 1)) x)", b"rule 1 at 1:6"),
    (b"(do ((if 1)) (a))", b"rule 1 at 1:7"),
    (b"(quote)", b"rule 2 at 1:1"),
    (b"(quote a b)", b"rule 2 at 1:1"),
    (b"(quasiquote)", b"rule 2 at 1:1"),
    (b"(quasiquote a b)", b"rule 2 at 1:1"),
    (b"(lambda)", b"rule 3 at 1:1"),
    (b"(lambda 5 1)", b"rule 3 at 1:1"),
    (b"(lambda (x 5) 1)", b"rule 3 at 1:1"),
    (b"(lambda (x . 5) 1)", b"rule 3 at 1:1"),
    (b"(lambda (1))", b"rule 3 at 1:1"),
    (b"(define (f 1))", b"rule 3 at 1:1"),
    (b"(define (f . 1) 2)", b"rule 3 at 1:1"),
    (b"(lambda (x))", b"rule 4 at 1:1"),
    (b"(lambda () (define a 1))", b"rule 4 at 1:1"),
    (b"(lambda () 1 (define a 1))", b"rule 4 at 1:1"),
    (b"(lambda () (define))", b"rule 4 at 1:1"),
    (b"(let)", b"rule 4 at 1:1"),
    (b"(let x)", b"rule 4 at 1:1"),
    (b"(let x 5)", b"rule 4 at 1:1"),
    (b"(let 5)", b"rule 4 at 1:1"),
    (b"(let 5 1 (define x 1))", b"rule 4 at 1:1"),
    (b"(let* ((x 1)))", b"rule 4 at 1:1"),
    (b"(letrec)", b"rule 4 at 1:1"),
    (b"(define (f))", b"rule 4 at 1:1"),
    (b"(let () (begin (define a 1)))", b"rule 4 at 1:1"),
];

pub(super) const FAULTS_OF_RULES_5_TO_7: [(&[u8], &[u8]); 22] = [
    (b"(if)", b"rule 5 at 1:1"),
    (b"(if 1)", b"rule 5 at 1:1"),
    (b"(if 1 2 3 4)", b"rule 5 at 1:1"),
    (b"(set! x)", b"rule 5 at 1:1"),
    (b"(set! 1 2)", b"rule 5 at 1:1"),
    (b"(set! x 1 2)", b"rule 5 at 1:1"),
    (b"(cond)", b"rule 6 at 1:1"),
    (b"(cond 1)", b"rule 6 at 1:1"),
    (b"(cond ())", b"rule 6 at 1:1"),
    (b"(cond (1 . 2))", b"rule 6 at 1:1"),
    (b"(cond (else))", b"rule 6 at 1:1"),
    (b"(cond (else 1) (2 3))", b"rule 6 at 1:1"),
    (b"(cond (1 =>))", b"rule 6 at 1:1"),
    (b"(cond (1 => f g))", b"rule 6 at 1:1"),
    (b"(case)", b"rule 7 at 1:1"),
    (b"(case 1)", b"rule 7 at 1:1"),
    (b"(case 1 2)", b"rule 7 at 1:1"),
    (b"(case 1 ((2)))", b"rule 7 at 1:1"),
    (b"(case 1 (2 3))", b"rule 7 at 1:1"),
    (b"(case 1 (else))", b"rule 7 at 1:1"),
    (b"(case 1 (else 2) ((3) 4))", b"rule 7 at 1:1"),
    (b"(case 1 ((2 . 3) 4))", b"rule 7 at 1:1"),
];

pub(super) const FAULTS_OF_RULES_8_TO_10: [(&[u8], &[u8]); 28] = [
    (b"(let 5 1)", b"rule 8 at 1:1"),
    (b"(let (x) 1)", b"rule 8 at 1:1"),
    (b"(let ((x)) 1)", b"rule 8 at 1:1"),
    (b"(let ((x 1 2)) 1)", b"rule 8 at 1:1"),
    (b"(let ((1 2)) 1)", b"rule 8 at 1:1"),
    (b"(let ((x . 1)) 1)", b"rule 8 at 1:1"),
    (b"(let ((x 1) . y) 1)", b"rule 8 at 1:1"),
    (b"(let* x 1)", b"rule 8 at 1:1"),
    (b"(letrec ((x)) 1)", b"rule 8 at 1:1"),
    (b"(let f 5 1)", b"rule 8 at 1:1"),
    (b"(do)", b"rule 9 at 1:1"),
    (b"(do ())", b"rule 9 at 1:1"),
    (b"(do () ())", b"rule 9 at 1:1"),
    (b"(do () x)", b"rule 9 at 1:1"),
    (b"(do 1 (2))", b"rule 9 at 1:1"),
    (b"(do ((x)) (1))", b"rule 9 at 1:1"),
    (b"(do ((x 1 2 3)) (1))", b"rule 9 at 1:1"),
    (b"(do ((1 2)) (3))", b"rule 9 at 1:1"),
    (b"(do () (1 . 2))", b"rule 9 at 1:1"),
    (b"(f (begin))", b"rule 10 at 1:4"),
    (b"(f . x)", b"rule 10 at 1:1"),
    (b"(if . 1)", b"rule 10 at 1:1"),
    (b"(else . 1)", b"rule 10 at 1:1"),
    (b"(delay . 1)", b"rule 10 at 1:1"),
    (b"(define x . 1)", b"rule 10 at 1:1"),
    (b"(begin 1 . 2)", b"rule 10 at 1:1"),
    (b"(lambda (begin) (begin))", b"rule 4 at 1:1"),
    (b"(lambda () 1 (begin))", b"rule 10 at 1:14"),
];

pub(super) const FAULTS_OF_RULES_11_TO_16: [(&[u8], &[u8]); 36] = [
    (b"(define)", b"rule 11 at 1:1"),
    (b"(define x)", b"rule 11 at 1:1"),
    (b"(define x 1 2)", b"rule 11 at 1:1"),
    (b"(define 5 1)", b"rule 11 at 1:1"),
    (b"(define ((f x) y) z)", b"rule 11 at 1:1"),
    (b"(define (1 x) y)", b"rule 11 at 1:1"),
    (b"(define () 1)", b"rule 11 at 1:1"),
    (b"(f (define x 1))", b"rule 11 at 1:4"),
    (b"(begin 1 (define x 1))", b"rule 11 at 1:10"),
    (b"(lambda () 1 (begin (define x 1)))", b"rule 11 at 1:21"),
    (b"(if 1 (define x 1))", b"rule 11 at 1:7"),
    (b"(lambda (x x) 1)", b"rule 12 at 1:1"),
    (b"(lambda (x . x) 1)", b"rule 12 at 1:1"),
    (b"(let ((x 1) (x 2)) 1)", b"rule 12 at 1:1"),
    (b"(let f ((x 1) (x 2)) 1)", b"rule 12 at 1:1"),
    (b"(letrec ((x 1) (x 2)) 1)", b"rule 12 at 1:1"),
    (b"(do ((x 1) (x 2)) (3))", b"rule 12 at 1:1"),
    (
        b"(lambda () (define x 1) (define (x) 2) 3)",
        b"rule 12 at 1:1",
    ),
    (
        b"(let* ((x 1)) (define y 1) (define y 2) y)",
        b"rule 12 at 1:1",
    ),
    (b"(lambda (if if) 1)", b"rule 12 at 1:1"),
    (b"()", b"rule 13 at 1:1"),
    (b"(f ())", b"rule 13 at 1:4"),
    (b"(unquote x)", b"rule 14 at 1:1"),
    (b",@x", b"rule 14 at 1:1"),
    (b"`(,(f ,x))", b"rule 14 at 1:7"),
    (b"#(1)", b"rule 15 at 1:1"),
    (b"(f #())", b"rule 15 at 1:4"),
    (b"(delay 1)", b"rule 16 at 1:1"),
    (b"(delay)", b"rule 16 at 1:1"),
    (b"(f (if) (quote))", b"rule 5 at 1:4"),
    (b"(f\n (quote)\n(if))", b"rule 2 at 2:2"),
    (b"(let ((x (quote)) (x 1)) x)", b"rule 12 at 1:1"),
    (
        b"(lambda () (define x (if)) (define y (delay)) x)",
        b"rule 5 at 1:22",
    ),
    (b"(cond ((if) 1) (2 (delay)))", b"rule 5 at 1:8"),
    (b"(case (if) ((1) (delay)))", b"rule 5 at 1:7"),
    (b"(do ((i (if))) ((delay)) 1)", b"rule 5 at 1:9"),
];
