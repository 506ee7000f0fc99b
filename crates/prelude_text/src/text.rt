ghost use Rattle.std.specs.Prelude.{◌≡◌};
ghost use Rattle.prelude_text.specs.Text.{library_text};

/// The text of the library: definition k stands in line k.
pub fn library() -> &'static str
    ensures { result.now ≡ library_text }
{
    "\
(define (eqv? x y) (%eqv? x y))\n\
(define (eq? x y) (%eqv? x y))\n\
(define (pair? x) (%pair? x))\n\
(define (symbol? x) (%symbol? x))\n\
(define (string? x) (%string? x))\n\
(define (vector? x) (%vector? x))\n\
(define (procedure? x) (%procedure? x))\n\
(define (integer? x) (%integer? x))\n\
(define (number? x) (%integer? x))\n\
(define (rational? x) (%integer? x))\n\
(define (real? x) (%integer? x))\n\
(define (complex? x) (%integer? x))\n\
(define (char? x) (%char? x))\n\
(define (boolean? x) (%boolean? x))\n\
(define (null? x) (%null? x))\n\
(define (eof-object? x) (%eof? x))\n\
(define (cons x y) (%cons x y))\n\
(define (car x) (%car x))\n\
(define (cdr x) (%cdr x))\n\
(define (set-car! x y) (%set-car! x y))\n\
(define (set-cdr! x y) (%set-cdr! x y))\n\
(define (quotient x y) (%quotient x y))\n\
(define (remainder x y) (%remainder x y))\n\
(define (modulo x y) (%modulo x y))\n\
(define (char->integer x) (%char->integer x))\n\
(define (integer->char x) (%integer->char x))\n\
(define (symbol->string x) (%symbol-name x))\n\
(define (string-length x) (%string-length x))\n\
(define (string-ref x y) (%string-ref x y))\n\
(define (string-set! x y z) (%string-set! x y z))\n\
(define (vector-length x) (%vector-length x))\n\
(define (vector-ref x y) (%vector-ref x y))\n\
(define (vector-set! x y z) (%vector-set! x y z))\n\
(define (read-char) (%read-char))\n\
(define (peek-char) (%peek-char))\n\
(define (write-char x) (%write-char x))\n\
(define (call-with-current-continuation x) (%call/cc x))\n\
(define (caar p) (car (car p)))\n\
(define (cadr p) (car (cdr p)))\n\
(define (cdar p) (cdr (car p)))\n\
(define (cddr p) (cdr (cdr p)))\n\
(define (caaar p) (car (caar p)))\n\
(define (caadr p) (car (cadr p)))\n\
(define (cadar p) (car (cdar p)))\n\
(define (caddr p) (car (cddr p)))\n\
(define (cdaar p) (cdr (caar p)))\n\
(define (cdadr p) (cdr (cadr p)))\n\
(define (cddar p) (cdr (cdar p)))\n\
(define (cdddr p) (cdr (cddr p)))\n\
(define (caaaar p) (car (caaar p)))\n\
(define (caaadr p) (car (caadr p)))\n\
(define (caadar p) (car (cadar p)))\n\
(define (caaddr p) (car (caddr p)))\n\
(define (cadaar p) (car (cdaar p)))\n\
(define (cadadr p) (car (cdadr p)))\n\
(define (caddar p) (car (cddar p)))\n\
(define (cadddr p) (car (cdddr p)))\n\
(define (cdaaar p) (cdr (caaar p)))\n\
(define (cdaadr p) (cdr (caadr p)))\n\
(define (cdadar p) (cdr (cadar p)))\n\
(define (cdaddr p) (cdr (caddr p)))\n\
(define (cddaar p) (cdr (cdaar p)))\n\
(define (cddadr p) (cdr (cdadr p)))\n\
(define (cdddar p) (cdr (cddar p)))\n\
(define (cddddr p) (cdr (cdddr p)))\n\
(define (not x) (if x #f #t))\n\
(define (list . xs) xs)\n\
(define (%opt r d) (if (null? r) d (if (null? (cdr r)) (car r) ((lambda () d) d))))\n\
(define (%bad n) (vector-ref '#() n))\n\
(define (apply f x . r) (if (null? r) (%apply f x) (%apply f (cons x (%spread r)))))\n\
(define (%spread r) (if (null? (cdr r)) (car r) (cons (car r) (%spread (cdr r)))))\n\
(define (%fold f a r) (if (null? r) a (%fold f (f a (car r)) (cdr r))))\n\
(define (+ . r) (%fold (lambda (a b) (+ a b)) 0 r))\n\
(define (* . r) (%fold (lambda (a b) (* a b)) 1 r))\n\
(define (- a . r) (if (null? r) (- 0 a) (%fold (lambda (a b) (- a b)) a r)))\n\
(define (%chain f a b r) (if (f a b) (if (null? r) #t (%chain f b (car r) (cdr r))) #f))\n\
(define (= a b . r) (%chain (lambda (a b) (= a b)) a b r))\n\
(define (< a b . r) (%chain (lambda (a b) (< a b)) a b r))\n\
(define (> a b . r) (%chain (lambda (a b) (> a b)) a b r))\n\
(define (<= a b . r) (%chain (lambda (a b) (<= a b)) a b r))\n\
(define (>= a b . r) (%chain (lambda (a b) (>= a b)) a b r))\n\
(define (zero? n) (= n 0))\n\
(define (positive? n) (< 0 n))\n\
(define (negative? n) (< n 0))\n\
(define (odd? n) (not (= (remainder n 2) 0)))\n\
(define (even? n) (= (remainder n 2) 0))\n\
(define (max a . r) (%fold (lambda (a b) (if (< a b) b a)) (+ a 0) r))\n\
(define (min a . r) (%fold (lambda (a b) (if (< b a) b a)) (+ a 0) r))\n\
(define (abs n) (if (< n 0) (- n) n))\n\
(define (gcd . r) (%fold %gcd 0 r))\n\
(define (%gcd a b) (if (= b 0) (abs a) (%gcd b (remainder a b))))\n\
(define (lcm . r) (%fold (lambda (a b) (if (or (= a 0) (= b 0)) 0 (abs (* a (quotient b (%gcd a b)))))) 1 r))\n\
(define (expt b n) (if (< n 0) (%bad n) (%expt (+ b 0) n 1)))\n\
(define (%expt b n a) (if (= n 0) a (%expt b (- n 1) (* a b))))\n\
(define (exact? n) (= n n))\n\
(define (inexact? n) (not (= n n)))\n\
(define (floor n) (+ n 0))\n\
(define (ceiling n) (+ n 0))\n\
(define (truncate n) (+ n 0))\n\
(define (round n) (+ n 0))\n\
(define (length l) (%length l 0))\n\
(define (%length l n) (if (null? l) n (%length (cdr l) (+ n 1))))\n\
(define (list? x) (%list? x x))\n\
(define (%list? x y) (if (and (pair? x) (pair? (cdr x))) (let ((x (cddr x)) (y (cdr y))) (if (and (pair? x) (eq? x y)) #f (%list? x y))) (or (null? x) (and (pair? x) (null? (cdr x))))))\n\
(define (append . r) (%append r))\n\
(define (%append r) (cond ((null? r) '()) ((null? (cdr r)) (car r)) (else (%join (car r) (%append (cdr r))))))\n\
(define (%join a b) (if (null? a) b (cons (car a) (%join (cdr a) b))))\n\
(define (reverse l) (%reverse l '()))\n\
(define (%reverse l a) (if (null? l) a (%reverse (cdr l) (cons (car l) a))))\n\
(define (list-tail l n) (if (= n 0) l (list-tail (cdr l) (- n 1))))\n\
(define (list-ref l n) (car (list-tail l n)))\n\
(define (%mem f x l) (cond ((null? l) #f) ((f x (car l)) l) (else (%mem f x (cdr l)))))\n\
(define (memq x l) (%mem eq? x l))\n\
(define (memv x l) (%mem eqv? x l))\n\
(define (member x l) (%mem equal? x l))\n\
(define (%ass f x l) (cond ((null? l) #f) ((f x (caar l)) (car l)) (else (%ass f x (cdr l)))))\n\
(define (assq x l) (%ass eq? x l))\n\
(define (assv x l) (%ass eqv? x l))\n\
(define (assoc x l) (%ass equal? x l))\n\
(define (equal? a b) (cond ((eqv? a b) #t) ((pair? a) (and (pair? b) (equal? (car a) (car b)) (equal? (cdr a) (cdr b)))) ((string? a) (and (string? b) (string=? a b))) ((vector? a) (and (vector? b) (= (vector-length a) (vector-length b)) (%vequal? a b 0))) (else #f)))\n\
(define (%vequal? a b i) (or (= i (vector-length a)) (and (equal? (vector-ref a i) (vector-ref b i)) (%vequal? a b (+ i 1)))))\n\
(define (map f l . r) (if (null? r) (%map f l) (%maps f (cons l r))))\n\
(define (%map f l) (if (null? l) '() (let ((x (f (car l)))) (cons x (%map f (cdr l))))))\n\
(define (%maps f ls) (if (%ends? ls) '() (let ((x (%apply f (%map car ls)))) (cons x (%maps f (%map cdr ls))))))\n\
(define (%ends? ls) (or (null? ls) (and (null? (car ls)) (%ends? (cdr ls)))))\n\
(define (for-each f l . r) (if (null? r) (%each f l) (%eachs f (cons l r))))\n\
(define (%each f l) (cond ((not (null? l)) (f (car l)) (%each f (cdr l)))))\n\
(define (%eachs f ls) (cond ((not (%ends? ls)) (%apply f (%map car ls)) (%eachs f (%map cdr ls)))))\n\
(define %made (%symbols))\n\
(define (string->symbol s) (%find s %made))\n\
(define (%find s l) (cond ((null? l) (let ((y (%make-symbol (string-copy s)))) (set! %made (cons y %made)) y)) ((string=? s (symbol->string (car l))) (car l)) (else (%find s (cdr l)))))\n\
(define (char=? a b) (= (char->integer a) (char->integer b)))\n\
(define (char<? a b) (< (char->integer a) (char->integer b)))\n\
(define (char>? a b) (> (char->integer a) (char->integer b)))\n\
(define (char<=? a b) (<= (char->integer a) (char->integer b)))\n\
(define (char>=? a b) (>= (char->integer a) (char->integer b)))\n\
(define (char-ci=? a b) (char=? (char-downcase a) (char-downcase b)))\n\
(define (char-ci<? a b) (char<? (char-downcase a) (char-downcase b)))\n\
(define (char-ci>? a b) (char>? (char-downcase a) (char-downcase b)))\n\
(define (char-ci<=? a b) (char<=? (char-downcase a) (char-downcase b)))\n\
(define (char-ci>=? a b) (char>=? (char-downcase a) (char-downcase b)))\n\
(define (char-downcase c) (if (char-upper-case? c) (integer->char (+ (char->integer c) 32)) c))\n\
(define (char-upcase c) (if (char-lower-case? c) (integer->char (- (char->integer c) 32)) c))\n\
(define (char-upper-case? c) (<= 65 (char->integer c) 90))\n\
(define (char-lower-case? c) (<= 97 (char->integer c) 122))\n\
(define (char-alphabetic? c) (or (char-upper-case? c) (char-lower-case? c)))\n\
(define (char-numeric? c) (<= 48 (char->integer c) 57))\n\
(define (char-whitespace? c) (let ((n (char->integer c))) (or (= n 32) (<= 9 n 10) (<= 12 n 13))))\n\
(define (make-string n . r) (%make-string n (%opt r #\\space)))\n\
(define (string . r) (list->string r))\n\
(define (list->string l) (let ((s (make-string (length l)))) (%sput s l 0) s))\n\
(define (%sput s l i) (cond ((not (null? l)) (string-set! s i (car l)) (%sput s (cdr l) (+ i 1)))))\n\
(define (string->list s) (%slist s (string-length s) '()))\n\
(define (%slist s n a) (if (= n 0) a (%slist s (- n 1) (cons (string-ref s (- n 1)) a))))\n\
(define (substring s i j) (if (<= 0 i j (string-length s)) (let ((t (make-string (- j i)))) (%copy s i j t 0) t) (string-ref s -1)))\n\
(define (%copy s i j t k) (cond ((< i j) (string-set! t k (string-ref s i)) (%copy s (+ i 1) j t (+ k 1)))))\n\
(define (string-copy s) (substring s 0 (string-length s)))\n\
(define (string-append . r) (let ((t (make-string (%lengths r 0)))) (%copies r t 0) t))\n\
(define (%lengths r n) (if (null? r) n (%lengths (cdr r) (+ n (string-length (car r))))))\n\
(define (%copies r t k) (cond ((not (null? r)) (%copy (car r) 0 (string-length (car r)) t k) (%copies (cdr r) t (+ k (string-length (car r)))))))\n\
(define (string-fill! s c) (%sfill s c 0))\n\
(define (%sfill s c i) (cond ((< i (string-length s)) (string-set! s i c) (%sfill s c (+ i 1)))))\n\
(define (%compare f a b i) (cond ((= i (string-length a)) (if (= i (string-length b)) 0 -1)) ((= i (string-length b)) 1) ((= (f (string-ref a i)) (f (string-ref b i))) (%compare f a b (+ i 1))) ((< (f (string-ref a i)) (f (string-ref b i))) -1) (else 1)))\n\
(define (string=? a b) (= (%compare char->integer a b 0) 0))\n\
(define (string<? a b) (< (%compare char->integer a b 0) 0))\n\
(define (string>? a b) (> (%compare char->integer a b 0) 0))\n\
(define (string<=? a b) (<= (%compare char->integer a b 0) 0))\n\
(define (string>=? a b) (>= (%compare char->integer a b 0) 0))\n\
(define (%ci c) (char->integer (char-downcase c)))\n\
(define (string-ci=? a b) (= (%compare %ci a b 0) 0))\n\
(define (string-ci<? a b) (< (%compare %ci a b 0) 0))\n\
(define (string-ci>? a b) (> (%compare %ci a b 0) 0))\n\
(define (string-ci<=? a b) (<= (%compare %ci a b 0) 0))\n\
(define (string-ci>=? a b) (>= (%compare %ci a b 0) 0))\n\
(define (make-vector n . r) (%make-vector n (%opt r 0)))\n\
(define (vector . r) (list->vector r))\n\
(define (list->vector l) (let ((v (make-vector (length l)))) (%vput v l 0) v))\n\
(define (%vput v l i) (cond ((not (null? l)) (vector-set! v i (car l)) (%vput v (cdr l) (+ i 1)))))\n\
(define (vector->list v) (%vlist v (vector-length v) '()))\n\
(define (%vlist v n a) (if (= n 0) a (%vlist v (- n 1) (cons (vector-ref v (- n 1)) a))))\n\
(define (vector-fill! v x) (%vfill v x 0))\n\
(define (%vfill v x i) (cond ((< i (vector-length v)) (vector-set! v i x) (%vfill v x (+ i 1)))))\n\
(define (%radix b) (if (memv b '(2 8 10 16)) b (%bad b)))\n\
(define (number->string n . r) (list->string (%chars n (%radix (%opt r 10)))))\n\
(define (%chars n b) (if (< n 0) (cons #\\- (%num n b '())) (%num (- n) b '())))\n\
(define (%num n b a) (let ((c (%digit (- (remainder n b)))) (q (quotient n b))) (if (= q 0) (cons c a) (%num q b (cons c a)))))\n\
(define (%digit d) (integer->char (if (< d 10) (+ 48 d) (+ 87 d))))\n\
(define (string->number s . r) (%parse (string->list s) (%radix (%opt r 10))))\n\
(define (%parse l b) (cond ((null? l) #f) ((char=? (car l) #\\-) (%minus (cdr l) b)) ((char=? (car l) #\\+) (%plus (cdr l) b)) (else (%plus l b))))\n\
(define (%plus l b) (let ((n (%minus l b))) (if n (if (= n -2305843009213693952) #f (- n)) #f)))\n\
(define (%minus l b) (if (null? l) #f (%acc l b 0)))\n\
(define (%acc l b a) (if (null? l) a (let ((d (%value (car l)))) (if (< d b) (if (< a (quotient (+ -2305843009213693952 d) b)) #f (%acc (cdr l) b (- (* a b) d))) #f))))\n\
(define (%value c) (let ((n (char->integer (char-downcase c)))) (cond ((<= 48 n 57) (- n 48)) ((<= 97 n 122) (- n 87)) (else 99))))\n\
(define (newline) (write-char #\\newline))\n\
(define (display x) (%print x #f))\n\
(define (write x) (%print x #t))\n\
(define (%print x w) (cond ((pair? x) (write-char #\\() (%items x w)) ((null? x) (%text \"()\")) ((string? x) (if w (%quoted x) (%text x))) ((symbol? x) (%text (symbol->string x))) ((integer? x) (%put (%chars x 10))) ((char? x) (if w (%named x) (write-char x))) ((boolean? x) (%text (if x \"#t\" \"#f\"))) ((vector? x) (write-char #\\#) (%print (vector->list x) w)) ((procedure? x) (%text \"#<procedure>\")) ((eof-object? x) (%text \"#<eof>\")) (else (%text \"#<unspecified>\"))))\n\
(define (%items x w) (%print (car x) w) (cond ((pair? (cdr x)) (write-char #\\space) (%items (cdr x) w)) ((null? (cdr x)) (write-char #\\))) (else (%text \" . \") (%print (cdr x) w) (write-char #\\)))))\n\
(define (%put l) (cond ((not (null? l)) (write-char (car l)) (%put (cdr l)))))\n\
(define (%text s) (%put (string->list s)))\n\
(define (%quoted s) (write-char #\\\") (%qput (string->list s)) (write-char #\\\"))\n\
(define (%qput l) (cond ((not (null? l)) (if (or (char=? (car l) #\\\") (char=? (car l) #\\\\)) (write-char #\\\\)) (write-char (car l)) (%qput (cdr l)))))\n\
(define (%named c) (write-char #\\#) (write-char #\\\\) (cond ((char=? c #\\space) (%text \"space\")) ((char=? c #\\newline) (%text \"newline\")) (else (write-char c))))\n"
}
