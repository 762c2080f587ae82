// Examples of the grammar, computed by the checker. Each function does nothing: its contract is the examples.

ghost use Rattle.std.specs.Prelude.{codes};
ghost use Rattle.uc_grammar.specs.Grammar.{expr_form, program_form};
ghost use Rattle.uc_grammar.specs.Samples.{Accepts, Spelled, Reads, Alike, EndsAt, StopsAt, Flat, Nests, DeepAt, a_stmt, parentheses, tree_of_accept_else, tree_of_asked, tree_of_assignment, tree_of_call, tree_of_chain, tree_of_class, tree_of_declaration, tree_of_else, tree_of_far_else, tree_of_handlers, tree_of_or, tree_of_places, tree_of_product, tree_of_read};

/// Operators bind from tight to loose, each level from left to right, and assignments from right to left.
pub fn samples_of_levels()
    ensures unary { Alike expr_form (codes "-a * !b") (codes "(-a) * (!b)") }
    ensures product { Alike expr_form (codes "a + b * c - d / e") (codes "a + (b * c) - (d / e)") }
    ensures remainder { Alike expr_form (codes "a % b + c") (codes "(a % b) + c") }
    ensures sum { Alike expr_form (codes "a < b + c") (codes "a < (b + c)") }
    ensures difference { Alike expr_form (codes "a - b >= c") (codes "(a - b) >= c") }
    ensures comparison { Alike expr_form (codes "a == b < c") (codes "a == (b < c)") }
    ensures others { Alike expr_form (codes "a <= b != c > d") (codes "(a <= b) != (c > d)") }
    ensures equality { Alike expr_form (codes "a && b == c") (codes "a && (b == c)") }
    ensures and { Alike expr_form (codes "a || b && c") (codes "a || (b && c)") }
    ensures or { Alike expr_form (codes "a && b || c") (codes "(a && b) || c") }
    ensures assigned { Alike expr_form (codes "a = b || c") (codes "a = (b || c)") }
    ensures assignments { Alike expr_form (codes "a = b += c -= d") (codes "a = (b += (c -= d))") }
    ensures more_assignments { Alike expr_form (codes "a *= b /= c %= d") (codes "a *= (b /= (c %= d))") }
    ensures place { Alike expr_form (codes "-a = b") (codes "(-a) = b") }
    ensures part { Alike expr_form (codes "-a.b") (codes "-(a.b)") }
    ensures step { Alike expr_form (codes "++a[i]--") (codes "++(a[i]--)") }
    ensures chain { Spelled expr_form (codes "a - 1 + b") tree_of_chain }
    ensures places { Spelled expr_form (codes "(a.b + 1) * -f(c)") tree_of_places }
    ensures assignment { Reads expr_form (codes "a = b") tree_of_assignment }
    ensures against_chain { EndsAt expr_form (codes "a + b = c") 3 }
    ensures after_unary { EndsAt expr_form (codes "a b") 1 }
{}

/// Every primary and every part, and where an expression stops.
pub fn samples_of_expressions()
    ensures number { Accepts expr_form (codes "7") }
    ensures character { Accepts expr_form (codes "'c'") }
    ensures truths { Accepts expr_form (codes "true || false") }
    ensures name { Accepts expr_form (codes "a") }
    ensures input { Accepts expr_form (codes "cin.fail()") }
    ensures parenthesis { Accepts expr_form (codes "((a))") }
    ensures parts { Accepts expr_form (codes "a.b[i](c, d)(e)++.f--") }
    ensures no_arguments { Accepts expr_form (codes "f()") }
    ensures arguments { Accepts expr_form (codes "f(a = b, c + 1, (d))") }
    ensures signs { Accepts expr_form (codes "- + ! ++ -- a") }
    ensures nothing { StopsAt expr_form (codes "") 0 }
    ensures operand { StopsAt expr_form (codes "a + ;") 2 }
    ensures close { StopsAt expr_form (codes "(a ;") 2 }
    ensures field { StopsAt expr_form (codes "a.1") 2 }
    ensures argument { StopsAt expr_form (codes "f(a, )") 4 }
    ensures value { StopsAt expr_form (codes "a = ") 2 }
    ensures word { StopsAt expr_form (codes "if") 0 }
    ensures index { StopsAt expr_form (codes "a[]") 2 }
{}

/// Every form of a statement.
pub fn samples_of_statements()
    ensures block { Accepts a_stmt (codes "{ ; { } a = 1; }") }
    ensures empty { Accepts a_stmt (codes ";") }
    ensures value { Accepts a_stmt (codes "f(a) + 1;") }
    ensures variables { Accepts a_stmt (codes "int a = 1, b[2], c(3, 4), d{5}, e{}, f;") }
    ensures objects { Accepts a_stmt (codes "A a(b), c;") }
    ensures bases { Accepts a_stmt (codes "{ void a; bool b; char c; uCondition d; uCluster e; uProcessor f(e); }") }
    ensures choice { Accepts a_stmt (codes "if (a) b; else c;") }
    ensures repeated { Accepts a_stmt (codes "while (a) b;") }
    ensures tested_last { Accepts a_stmt (codes "do a; while (b);") }
    ensures counted { Accepts a_stmt (codes "for (int i = 0; i < 9; i += 1) a;") }
    ensures object_counted { Accepts a_stmt (codes "for (A a(1), b; ; ) c;") }
    ensures value_counted { Accepts a_stmt (codes "for (i = 0; ; i++) ;") }
    ensures forever { Accepts a_stmt (codes "for (;;) ;") }
    ensures leave { Accepts a_stmt (codes "{ break; continue; return; return a; }") }
    ensures guarded { Accepts a_stmt (codes "try { a; } catch (E) { } catch (E e) { } catch (E & e) { } _CatchResume (E &) { } catch (...) { }") }
    ensures thrown { Accepts a_stmt (codes "{ _Throw; _Throw E(); _Throw E(a, b); }") }
    ensures resumed { Accepts a_stmt (codes "{ _Resume; _Resume E(a); _Resume E() _At a.b[c]; }") }
    ensures enabled { Accepts a_stmt (codes "_Enable <E> <F> a;") }
    ensures all_enabled { Accepts a_stmt (codes "_Enable { }") }
    ensures disabled { Accepts a_stmt (codes "_Disable <E> _Disable a;") }
    ensures accepted { Accepts a_stmt (codes "_Accept(a) b;") }
    ensures clauses { Accepts a_stmt (codes "_When (a) _Accept(b, ~T) c; or _Accept(d) ; _Else e;") }
    ensures printed { Accepts a_stmt (codes "cout << endl << \"text\" << a + b << 'c';") }
    ensures together { Accepts a_stmt (codes "osacquire(cout) << a << endl;") }
    ensures read { Accepts a_stmt (codes "cin >> a >> b.c[1];") }
    ensures input { Accepts a_stmt (codes "{ cin.fail(); cin; cin = a; }") }
    ensures switched { Accepts a_stmt (codes "{ resume(); suspend(); yield(); migrate(a.b); }") }
    ensures handler { StopsAt a_stmt (codes "try { } a;") 3 }
    ensures printed_value { StopsAt a_stmt (codes "cout << ;") 2 }
    ensures comparison_printed { StopsAt a_stmt (codes "cout << a < b;") 3 }
    ensures clause { StopsAt a_stmt (codes "_When (a) b;") 4 }
    ensures unclosed { StopsAt a_stmt (codes "{ a;") 3 }
    ensures base { StopsAt a_stmt (codes "int;") 1 }
    ensures read_value { StopsAt a_stmt (codes "cin >> ;") 2 }
    ensures assigned_chain { StopsAt a_stmt (codes "a + b = c;") 3 }
    ensures event { StopsAt a_stmt (codes "_Throw E;") 2 }
{}

/// Where a part could belong to two statements, it belongs to the nearest; and what a first name begins.
pub fn samples_of_nearest()
    ensures other { Reads a_stmt (codes "if (a) if (b) c; else d;") tree_of_else }
    ensures others { Accepts a_stmt (codes "if (a) if (b) c; else d; else e;") }
    ensures loop_between { Reads a_stmt (codes "if (a) while (b) if (c) d; else e;") tree_of_far_else }
    ensures clause { Reads a_stmt (codes "_Accept(a) _Accept(b) c; or _Accept(d) e;") tree_of_or }
    ensures no_clause { Reads a_stmt (codes "_Accept(a) _Accept(b) c; _Else d;") tree_of_accept_else }
    ensures handlers { Reads a_stmt (codes "if (a) try { } catch (E) { } catch (F) { }") tree_of_handlers }
    ensures declared { Reads a_stmt (codes "a b;") tree_of_declaration }
    ensures evaluated { Reads a_stmt (codes "a * b;") tree_of_product }
    ensures called { Reads a_stmt (codes "a(b);") tree_of_call }
    ensures read { Reads a_stmt (codes "cin >> a;") tree_of_read }
    ensures asked { Reads a_stmt (codes "cin.fail();") tree_of_asked }
{}

/// Every form of an item and of a part of a class, and where a program stops.
pub fn samples_of_programs()
    ensures used { Accepts program_form (codes "using namespace std;") }
    ensures constants { Accepts program_form (codes "const int N = 1 + 2; const bool B = true; const char C = 65;") }
    ensures forward { Accepts program_form (codes "class A; _Coroutine B; _Task C; _Event D;") }
    ensures prototypes { Accepts program_form (codes "int f(); void g(int a, A & b); A h(uCluster & c);") }
    ensures routines { Accepts program_form (codes "int f(int a) { return a; } A g() { }") }
    ensures mains { Accepts program_form (codes "void uMain::main() { } int main() { }") }
    ensures members_outside { Accepts program_form (codes "int A::f(int a) { return a; } A B::g() { }") }
    ensures makers_outside { Accepts program_form (codes "A::A() { } A::A(int a) : b(a), c() { } A::~A() { }") }
    ensures classes { Accepts program_form (codes "class A { }; _Coroutine B { }; _Task C { void main() { } }; _Event D { int a; };") }
    ensures fields { Accepts program_form (codes "class A { int a, b[3], & c; B d, & e; B & f, g; };") }
    ensures members { Accepts program_form (codes "_Monitor A { void f(); _Mutex int g(int a) { return a; } public: _Nomutex B h(); };") }
    ensures makers { Accepts program_form (codes "class A { A(); A(int a) : b(a), c(a, 1) { } ~A(); ~A() { } };") }
    ensures monitor { Alike program_form (codes "_Mutex class A { };") (codes "_Monitor A { };") }
    ensures cormonitor { Alike program_form (codes "_Mutex _Coroutine A;") (codes "_Cormonitor A;") }
    ensures private { Alike program_form (codes "class A { int a; };") (codes "class A { private: int a; };") }
    ensures access { Alike program_form (codes "class A { public: int a; protected: public: int b; };") (codes "class A { protected: public: int a; public: int b; };") }
    ensures exception { Alike program_form (codes "_Exception E { };") (codes "_Event E { };") }
    ensures class { Reads program_form (codes "class A { public: _Nomutex A f(); };") tree_of_class }
    ensures nothing { StopsAt program_form (codes "") 0 }
    ensures printed { StopsAt program_form (codes "void uMain::main() { cout << ; }") 9 }
    ensures cut { StopsAt program_form (codes "void uMain::main() { int x = 1") 11 }
    ensures field { StopsAt program_form (codes "class A { int x }") 5 }
    ensures class_end { StopsAt program_form (codes "class A { }") 4 }
    ensures item { StopsAt program_form (codes "int f(); }") 5 }
    ensures main_name { StopsAt program_form (codes "int uMain();") 2 }
    ensures constant { StopsAt program_form (codes "const A a = 1;") 1 }
    ensures outside { StopsAt program_form (codes "A::b;") 3 }
    ensures mutex { StopsAt program_form (codes "_Mutex _Task A;") 1 }
    ensures prototype_outside { StopsAt program_form (codes "int A::f();") 6 }
    ensures inits { StopsAt program_form (codes "class A { int f() : a(b) { } };") 7 }
{}

/// How many levels each construct is, and the token at which the last begins.
pub fn samples_of_nesting()
    ensures operators { Flat expr_form (codes "a || b && c == d < e + f * g") }
    ensures assignment { Flat expr_form (codes "a = b * c") }
    ensures no_argument { Flat expr_form (codes "a.f().b++") }
    ensures parenthesis { Nests expr_form (codes "(a)") 0 1 }
    ensures parentheses { Nests expr_form (codes "((a))") 1 2 }
    ensures unary { Nests expr_form (codes "-a") 0 1 }
    ensures index { Nests expr_form (codes "a[b]") 0 2 }
    ensures argument { Nests expr_form (codes "f(a)") 0 2 }
    ensures second_assignment { Nests expr_form (codes "a = b = c") 0 4 }
    ensures third_assignment { Nests expr_form (codes "a = b = c = d") 1 6 }
    ensures statement { Nests a_stmt (codes ";") 0 0 }
    ensures empty_block { Nests a_stmt (codes "{ }") 0 0 }
    ensures block { Nests a_stmt (codes "{ ; }") 2 1 }
    ensures choice { Nests a_stmt (codes "if (a) ;") 1 4 }
    ensures condition { Nests a_stmt (codes "if ((a)) ;") 1 3 }
    ensures chosen_last { Nests a_stmt (codes "if (a) ; else if (b) ;") 2 10 }
    ensures counted { Nests a_stmt (codes "for (int i = (1); ; ) ;") 1 6 }
    ensures guarded { Nests a_stmt (codes "try { ; } catch (E) { ; }") 2 2 }
    ensures handler { Nests a_stmt (codes "try { } catch (E) { ; }") 2 8 }
    ensures enabled { Nests a_stmt (codes "_Enable ;") 1 1 }
    ensures clause { Nests a_stmt (codes "_Accept(a) ;") 1 4 }
    ensures guard { Nests a_stmt (codes "_When ((a)) _Accept(b) ;") 1 3 }
    ensures length { Nests a_stmt (codes "int a[2];") 1 3 }
    ensures started { Nests a_stmt (codes "int a(1);") 1 3 }
    ensures started_in_braces { Nests a_stmt (codes "int a{1};") 1 3 }
    ensures raised { Nests a_stmt (codes "_Throw E(1);") 1 3 }
    ensures printed { Nests a_stmt (codes "cout << (1);") 1 3 }
    ensures routine { Flat program_form (codes "int f(int a) { }") }
    ensures body { Nests program_form (codes "void f() { ; }") 1 5 }
    ensures part { Nests program_form (codes "class A { int a; };") 0 3 }
    ensures field_length { Nests program_form (codes "class A { int a[2]; };") 1 6 }
    ensures initialiser { Nests program_form (codes "class A { A() : a(1) { } };") 1 9 }
    ensures member_body { Nests program_form (codes "class A { void f() { ; } };") 2 8 }
    ensures deepest { Nests program_form (parentheses 254) 255 263 }
    ensures too_deep { DeepAt program_form (parentheses 255) 264 }
{}
