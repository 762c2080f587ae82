// Samples of the nesting of trees, computed by the checker. Each function does nothing: its contract is the samples.

ghost use Rattle.std.specs.Prelude.{codes};
ghost use Rattle.uc_grammar.specs.Grammar.{expr_form, program_form};
ghost use Rattle.uc_grammar.specs.Samples.{a_stmt, parentheses};
ghost use Rattle.uc_nesting.specs.ExpressionNesting.{expr_nesting};
ghost use Rattle.uc_nesting.specs.Nesting.{nesting};
ghost use Rattle.uc_nesting.specs.Laws.{Nests, Measures, stmt_levels, blocks};

/// Expressions whose trees nest as deep as their texts.
pub fn samples_of_expressions()
    ensures chain { Nests expr_form expr_nesting (codes "a + b * c - d") 0 }
    ensures sum_in_product { Nests expr_form expr_nesting (codes "(a + b) * c") 1 }
    ensures right_difference { Nests expr_form expr_nesting (codes "a - (b - c)") 1 }
    ensures comparison_in_sum { Nests expr_form expr_nesting (codes "(a < b) + c") 1 }
    ensures equality_in_comparison { Nests expr_form expr_nesting (codes "(a == b) < c") 1 }
    ensures conjunction_in_equality { Nests expr_form expr_nesting (codes "(a && b) == c") 1 }
    ensures disjunction_in_conjunction { Nests expr_form expr_nesting (codes "(a || b) && c") 1 }
    ensures each_level { Nests expr_form expr_nesting (codes "a || b && c == d < e + f * -g") 1 }
    ensures assigned_operand { Nests expr_form expr_nesting (codes "(a = b) + c") 1 }
    ensures unary { Nests expr_form expr_nesting (codes "-a") 1 }
    ensures two_unary { Nests expr_form expr_nesting (codes "- -a") 2 }
    ensures unary_sum { Nests expr_form expr_nesting (codes "-(a + b)") 2 }
    ensures unary_factor { Nests expr_form expr_nesting (codes "-a * b") 1 }
    ensures negation { Nests expr_form expr_nesting (codes "!(a && b) || c") 2 }
    ensures called_unary { Nests expr_form expr_nesting (codes "(-a)(b)") 2 }
    ensures part_of_sum { Nests expr_form expr_nesting (codes "(a + b).c") 1 }
    ensures part_of_part { Nests expr_form expr_nesting (codes "(a.b).c") 1 }
    ensures index { Nests expr_form expr_nesting (codes "a[b]") 1 }
    ensures index_in_index { Nests expr_form expr_nesting (codes "a[b[c]]") 2 }
    ensures no_argument { Nests expr_form expr_nesting (codes "f()") 0 }
    ensures arguments { Nests expr_form expr_nesting (codes "f(a, g(b))") 2 }
    ensures parts { Nests expr_form expr_nesting (codes "a.b(c)[d]++") 1 }
    ensures assignment { Nests expr_form expr_nesting (codes "a = b") 0 }
    ensures second_assignment { Nests expr_form expr_nesting (codes "a = b = c") 1 }
    ensures third_assignment { Nests expr_form expr_nesting (codes "a = b = c = d") 2 }
    ensures unary_on_the_right { Nests expr_form expr_nesting (codes "a = b = -c") 2 }
    ensures assignment_in_chain { Nests expr_form expr_nesting (codes "a = (b = c) + d") 1 }
    ensures assigned_place { Nests expr_form expr_nesting (codes "(a = b) = c") 1 }
{}

/// Parentheses, and an access that stands alone, that leave nothing in a tree.
pub fn samples_of_parentheses()
    ensures parenthesis { Measures expr_form expr_nesting (codes "(a)") 0 }
    ensures parentheses { Measures expr_form expr_nesting (codes "((a + b))") 0 }
    ensures product_in_sum { Measures expr_form expr_nesting (codes "a + (b * c)") 0 }
    ensures operand { Measures expr_form expr_nesting (codes "-(a)") 1 }
    ensures access { Measures program_form nesting (codes "class A { public: };") 0 }
    ensures printed { Measures program_form nesting (parentheses 12) 2 }
{}

/// Statements whose trees nest as deep as their texts.
pub fn samples_of_statements()
    ensures empty { Nests a_stmt stmt_levels (codes ";") 1 }
    ensures empty_block { Nests a_stmt stmt_levels (codes "{ }") 1 }
    ensures block { Nests a_stmt stmt_levels (codes "{ ; }") 3 }
    ensures block_in_block { Nests a_stmt stmt_levels (codes "{ { ; } }") 5 }
    ensures choice { Nests a_stmt stmt_levels (codes "if (a) ;") 2 }
    ensures condition { Nests a_stmt stmt_levels (codes "if (-(a + b)) ;") 3 }
    ensures chosen_last { Nests a_stmt stmt_levels (codes "if (a) ; else if (b) ;") 3 }
    ensures turn { Nests a_stmt stmt_levels (codes "while (a[b]) ;") 2 }
    ensures loop_body { Nests a_stmt stmt_levels (codes "do { ; } while (a);") 4 }
    ensures counted { Nests a_stmt stmt_levels (codes "for (int i = -1; ; ) ;") 2 }
    ensures counted_step { Nests a_stmt stmt_levels (codes "for (a; b; -(c + d)) ;") 3 }
    ensures counted_test { Nests a_stmt stmt_levels (codes "for (; f(a[b]); ) ;") 3 }
    ensures value { Nests a_stmt stmt_levels (codes "return -a;") 2 }
    ensures guarded { Nests a_stmt stmt_levels (codes "try { ; } catch (E) { }") 3 }
    ensures handler { Nests a_stmt stmt_levels (codes "try { } catch (E) { -a; }") 4 }
    ensures raised { Nests a_stmt stmt_levels (codes "_Throw E(-a);") 3 }
    ensures raised_again { Nests a_stmt stmt_levels (codes "_Throw;") 1 }
    ensures raised_at { Nests a_stmt stmt_levels (codes "_Resume E() _At b[-c];") 3 }
    ensures enabled { Nests a_stmt stmt_levels (codes "_Enable ;") 2 }
    ensures disabled { Nests a_stmt stmt_levels (codes "_Disable <E> { ; }") 4 }
    ensures clause { Nests a_stmt stmt_levels (codes "_Accept(a) -b;") 3 }
    ensures clauses { Nests a_stmt stmt_levels (codes "_Accept(a) ; or _Accept(b) -c;") 3 }
    ensures guard { Nests a_stmt stmt_levels (codes "_When (- -a) _Accept(b) ;") 3 }
    ensures otherwise { Nests a_stmt stmt_levels (codes "_Accept(a) ; _Else { ; }") 4 }
    ensures printed { Nests a_stmt stmt_levels (codes "cout << a + b << (c < d);") 2 }
    ensures read { Nests a_stmt stmt_levels (codes "cin >> a[b];") 2 }
    ensures read_part_of_sum { Nests a_stmt stmt_levels (codes "cin >> (a + b).c;") 2 }
    ensures migrated { Nests a_stmt stmt_levels (codes "migrate(a[b]);") 2 }
    ensures variables { Nests a_stmt stmt_levels (codes "int a, b[-2];") 3 }
    ensures started { Nests a_stmt stmt_levels (codes "int a = -1;") 2 }
    ensures started_in_parentheses { Nests a_stmt stmt_levels (codes "A a(b, -c);") 3 }
    ensures started_in_braces { Nests a_stmt stmt_levels (codes "int a{b};") 2 }
    ensures resumed { Nests a_stmt stmt_levels (codes "resume();") 1 }
{}

/// Programs whose trees nest as deep as their texts, up to the limit.
pub fn samples_of_programs()
    ensures routine { Nests program_form nesting (codes "int f(int a) { }") 0 }
    ensures body { Nests program_form nesting (codes "void f() { ; }") 2 }
    ensures main { Nests program_form nesting (codes "void uMain::main() { -a; }") 3 }
    ensures part { Nests program_form nesting (codes "class A { int a; };") 1 }
    ensures field_length { Nests program_form nesting (codes "class A { int a[2]; };") 2 }
    ensures initialiser { Nests program_form nesting (codes "class A { A() : a(-1) { } };") 3 }
    ensures outer_initialiser { Nests program_form nesting (codes "A::A() : a(1) { }") 1 }
    ensures member_body { Nests program_form nesting
        (codes "class A { int a; void f() { ; } };") 3 }
    ensures constant { Nests program_form nesting (codes "const int a = -1;") 1 }
    ensures forward { Nests program_form nesting (codes "class A;") 0 }
    ensures items { Nests program_form nesting (codes "class A { }; void f() { ; }") 2 }
    ensures limit { Nests program_form nesting (blocks 128) 256 }
{}
