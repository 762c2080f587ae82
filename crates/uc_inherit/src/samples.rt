// Samples of opening, computed by the checker. Each function does nothing: its contract is the samples.

ghost use Rattle.std.specs.Prelude.{[], ◌∷◌, codes};
ghost use Rattle.uc_inherit.specs.Laws.{Opens, at_place, derived, lines};

/// A head of every kind of class, and where its class begins.
pub fn samples_of_heads()
    ensures of_class { Opens (codes "class D : public B { };") (codes "class D { };")
        (derived 1 1 (codes "B") ∷ []) [] }
    ensures of_coroutine { Opens (codes "_Coroutine D : public B { };") (codes "_Coroutine D { };")
        (derived 1 1 (codes "B") ∷ []) [] }
    ensures of_monitor { Opens (codes "_Monitor D : public B { };") (codes "_Monitor D { };")
        (derived 1 1 (codes "B") ∷ []) [] }
    ensures of_cormonitor { Opens (codes "_Cormonitor D : public B { };") (codes "_Cormonitor D { };")
        (derived 1 1 (codes "B") ∷ []) [] }
    ensures of_task { Opens (codes "_Task D : public B { };") (codes "_Task D { };")
        (derived 1 1 (codes "B") ∷ []) [] }
    ensures of_event { Opens (codes "_Event D : public B { };") (codes "_Event D { };")
        (derived 1 1 (codes "B") ∷ []) [] }
    ensures of_exception { Opens (codes "_Exception D : public B { };") (codes "_Exception D { };")
        (derived 1 1 (codes "B") ∷ []) [] }
    ensures of_mutex_class { Opens (codes "_Mutex class D : public B { };") (codes "_Mutex class D { };")
        (derived 1 1 (codes "B") ∷ []) [] }
    ensures of_mutex_coroutine { Opens (codes "_Mutex _Coroutine D : public B { };") (codes "_Mutex _Coroutine D { };")
        (derived 1 1 (codes "B") ∷ []) [] }
    ensures behind_another { Opens
        (codes "class C; _Mutex class D : public B { };")
        (codes "class C; _Mutex class D { };")
        (derived 1 10 (codes "B") ∷ []) [] }
    ensures mutex_task { Opens (codes "_Mutex _Task D : public B { };") (codes "_Mutex _Task D { };")
        (derived 1 8 (codes "B") ∷ []) [] }
    ensures two_heads { Opens
        (codes "class B : public A { }; _Task E : public F { };")
        (codes "class B { }; _Task E { };")
        (derived 1 1 (codes "A") ∷ derived 1 25 (codes "F") ∷ []) [] }
{}

/// The token after each `virtual` is noted, and no `virtual` is a name in a head.
pub fn samples_of_virtual()
    ensures member { Opens (codes "class A { virtual void f() { } };") (codes "class A { void f() { } };")
        [] (at_place 1 19 ∷ []) }
    ensures last { Opens (codes "int a; virtual") (codes "int a;") [] (at_place 1 8 ∷ []) }
    ensures alone { Opens (codes "virtual") (codes "") [] (at_place 1 1 ∷ []) }
    ensures twice { Opens (codes "virtual virtual int a;") (codes "int a;")
        [] (at_place 1 9 ∷ at_place 1 17 ∷ []) }
    ensures before_head { Opens (codes "virtual class D : public B { };") (codes "class D { };")
        (derived 1 9 (codes "B") ∷ []) (at_place 1 9 ∷ []) }
    ensures virtual_base { Opens (codes "class D : virtual public B { };") (codes "class D : public B { };")
        [] (at_place 1 19 ∷ []) }
    ensures behind_access { Opens (codes "class D : public virtual B { };") (codes "class D : public B { };")
        [] (at_place 1 26 ∷ []) }
    ensures behind_name { Opens (codes "class D virtual : public B { };") (codes "class D : public B { };")
        [] (at_place 1 17 ∷ []) }
    ensures no_name { Opens (codes "class virtual : public B { };") (codes "class : public B { };")
        [] (at_place 1 15 ∷ []) }
    ensures no_base { Opens (codes "class D : public virtual { };") (codes "class D : public { };")
        [] (at_place 1 26 ∷ []) }
{}

/// What is no head with a base stays.
pub fn samples_of_others()
    ensures nothing { Opens (codes "") (codes "") [] [] }
    ensures plain { Opens (codes "class D { };") (codes "class D { };") [] [] }
    ensures private { Opens (codes "class D : private B { };") (codes "class D : private B { };")
        [] [] }
    ensures no_access { Opens (codes "class D : B { };") (codes "class D : B { };") [] [] }
    ensures forward { Opens (codes "class D : public B;") (codes "class D : public B;") [] [] }
    ensures two_bases { Opens
        (codes "class D : public B, public C { };")
        (codes "class D : public B, public C { };")
        [] [] }
    ensures qualified { Opens (codes "class D : public N::B { };") (codes "class D : public N::B { };")
        [] [] }
    ensures nameless { Opens (codes "class : public B { };") (codes "class : public B { };") [] [] }
    ensures kindless { Opens (codes "D : public B { };") (codes "D : public B { };") [] [] }
    ensures other_kind { Opens (codes "struct D : public B { };") (codes "struct D : public B { };")
        [] [] }
    ensures label { Opens (codes "class A { public: B b; };") (codes "class A { public: B b; };")
        [] [] }
    ensures initialiser { Opens (codes "class A { A() : b(1) { } };") (codes "class A { A() : b(1) { } };")
        [] [] }
    ensures similar { Opens (codes "class A { virtually f; };") (codes "class A { virtually f; };")
        [] [] }
{}

/// Classes of programs.
pub fn samples_of_programs()
    ensures shape { Opens
        (codes "class Shape { int k; public: Shape(int k) : k(k) {} virtual int area() { return 0; } };")
        (codes "class Shape { int k; public: Shape(int k) : k(k) {} int area() { return 0; } };")
        [] (at_place 1 61 ∷ []) }
    ensures square { Opens
        (codes "class Square : public Shape { int s; public: Square(int s) : Shape(4), s(s) {} int area() { return s * s; } };")
        (codes "class Square { int s; public: Square(int s) : Shape(4), s(s) {} int area() { return s * s; } };")
        (derived 1 1 (codes "Shape") ∷ []) [] }
    ensures monitor { Opens
        (codes "_Monitor Twice : public Counter { public: void up() { n += 2; } };")
        (codes "_Monitor Twice { public: void up() { n += 2; } };")
        (derived 1 1 (codes "Counter") ∷ []) [] }
    ensures events { Opens
        (codes "_Event Io {}; _Event Late : public Io {};")
        (codes "_Event Io {}; _Event Late {};")
        (derived 1 15 (codes "Io") ∷ []) [] }
    ensures two_lines { Opens
        (lines (codes "class A { public: void f() {} };") (codes "class B : public A { public: void f() {} };"))
        (codes "class A { public: void f() {} }; class B { public: void f() {} };")
        (derived 2 1 (codes "A") ∷ []) [] }
{}
