// What the items of a program give names.

ghost use Rattle.std.specs.Prelude.{◌≡◌, ◌<◌, ◌++◌, [], ◌∷◌, ℕ, List, IfOk, OnOk, MatchOption, Some, None, get_or, length, map, option_map, slice_get};
ghost use Rattle.uc_layout.specs.Places.{IsPlaces};
ghost use Rattle.uc_names.specs.Blocks.{found};
ghost use Rattle.uc_tree.specs.declared.kinds.Base.{Base as Named};
ghost use Rattle.uc_tree.specs.declared.kinds.Role.TheVariants as role;
ghost use Rattle.uc_tree.specs.Constants.{constants_of, constant_named};
ghost use Rattle.uc_tree.specs.Numbering.{Defined, event_names, is_mutex, is_plain, routines_of};
ghost use Rattle.uc_tree.specs.Cells.{classes_of, class_cells};
ghost use Rattle.uc_tree.specs.Objects.{class_at, class_made, has_execution, is_coroutine, is_numbered, is_task, making, number_at, place_of, base_shape};
ghost use Rattle.uc_tree.specs.Programs.{Program};
ghost use Rattle.uc_tree.specs.Source.{Expr, shape_cells};
ghost use Rattle.uc_resolve.specs.Resolve.{AsValue, class_by, event_constructor, has_coroutines, has_number_in, has_tasks, is_here, main_at, number_of_event, routine_from, params_of, result_of, scalar};
ghost use Rattle.uc_lower_expr.specs.Meanings.{Tells, is_coroutine_in, is_mutex_at, making_of, member_by, mutex_number_in};
ghost use Rattle.uc_lower_expr.specs.Numbered.{is_called_alone, AreAmong, AreExclusive, IsFixed, IsNumbering};
ghost use Rattle.uc_lower_expr.specs.Members.{AreTables, FitClasses, IsField, IsNthField, count_fields, member_at, no_field, no_field_at, object_places, routine_for};
ghost use Rattle.uc_lower_expr.specs.Known.{HasRoutines, KnowsRoutines, NotesFields, is_event_in, place_among, routine_or};

use crate::events::{builders_of, events_of, is_event, number_of};
use crate::fields::{Field, FieldTable, count_of, field_of, fields_of, nth_field, value_of_base};
use crate::making::{Made, made_by};
use crate::meaning::{ExprMeaning, Scalar};
use crate::numbering::{ClassRoutine, ConstantMeaning, Numbering};
use crate::routine_table::{RoutineTable, main_number_in, member_in, table_of, tables_of};
use std::alloc::{AllocError, Global};
use std::marker::Model;
use uc_layout::places::{no_places, place_in};
use uc_layout::sizes::Sizes;
use uc_names::scope::Scope;
use uc_tree::class::{Class, Routine, Sig};
use uc_tree::kinds::{Base, Kind, Owner, Param, Role};
use uc_tree::limits::{FAILURE, MEMBERS, UNHANDLED};
use uc_tree::name::Name;

/// A program whose constants, routines, classes and their members are known by their names, with their numbers. No class has itself
/// in its fields, and each fits the limit on its cells. Contracts see the program.
#[derive(Drop)]
pub struct ProgramNames<'a> {
    sizes: &'a Sizes<'a>,
    numbering: Numbering<'a>,
    classes: ClassesByName,
    routines: RoutinesByName,
}

impl<'a> Model for ProgramNames<'a> {
    ghost use Rattle.uc_tree.specs.Programs.{Program};
    ghost use Rattle.uc_tree.specs.ProgramCodes.{program_coded};
    ghost use Rattle.uc_lower_expr.specs.Known.{AreKnown};

    ghost Value = { Program };

    ghost coded = { program_coded };

    ghost view = { λ a. a.sizes.now };

    ghost invariant = { λ a. AreKnown a.sizes.now a.numbering a.routines.alone a.classes.objects.items a.classes.fields.items a.routines.tables.items a.classes.events a.routines.builders };
}

// The places of the classes that are no events, the fields of all classes, and the places of the events among the events by name.
#[derive(Drop)]
struct ClassesByName {
    objects: Vec<usize>,
    fields: Vec<FieldTable>,
    events: Scope,
}

// The numbers of the routines that are called by their names alone, the routines of each class, by the numbers of classes, and the
// numbers of those that build events, by the names of these.
#[derive(Drop)]
struct RoutinesByName {
    alone: Scope,
    tables: Vec<RoutineTable>,
    builders: Scope,
}

fn is_here(owner: &Owner) -> bool
    ensures { result ≡ is_here owner.now }
{
    match owner {
        Owner::Here => true,
        Owner::Main => false,
        Owner::Class(_) => false,
    }
}

fn is_plain(role: Role) -> bool
    ensures { result ≡ is_plain role }
{
    match role {
        Role::Plain => true,
        Role::Constructor => false,
        Role::Destructor => false,
    }
}

// `owner` is the number of the routine's class.
fn is_called_alone(owner: u32, sig: &Sig) -> bool
    ensures { result ≡ is_called_alone owner sig.now }
{
    owner == 0 && is_here(&sig.owner) && is_plain(sig.role)
}

/// The signature of a routine.
pub fn sig_of(routine: &Routine) -> &Sig
    ensures { result.now ≡ routine.now.sig }
{
    &routine.sig
}

/// The name of a signature.
pub fn name_of(sig: &Sig) -> &Name
    ensures { result.now ≡ sig.now.name }
{
    &sig.name
}

/// What a signature's routine hands over.
pub fn result_of(sig: &Sig) -> &Base
    ensures { result.now ≡ sig.now.ret }
{
    &sig.ret
}

/// The parameters of a signature.
pub fn params_of(sig: &Sig) -> &[Param]
    ensures { result.now ≡ sig.now.params }
{
    &sig.params
}

// One more routine, with this number and that of its class. Memory is wanting where its own is not below 2^32.
fn note_alone(
    numbers: &mut Scope,
    owner: u32,
    routine: &Routine,
    number: usize,
) -> Result<(), AllocError>
    requires { length numbers.old ≡ 1 }
    ensures one { OnOk result (length numbers.new ≡ 1) }
    ensures noted { OnOk result ((ds : List Defined) (d : Defined) → d.routine ≡ routine.now →
        d.number ≡ owner → length ds ≡ number → AreAmong ds numbers.old →
        AreAmong (ds ++ d ∷ []) numbers.new) }
{
    let sig = sig_of(routine);
    if !is_called_alone(owner, sig) {
        return Ok(());
    }
    match u32::try_from(number) {
        Ok(id) => {
            numbers.declare(name_of(sig).bytes(), id)?;
            Ok(())
        }
        Err(_) => Err(AllocError),
    }
}

// The numbers of those of these routines that are called by their names alone. `owners` are the numbers of their classes.
fn numbers_of(alloc: Global, routines: &[&Routine], owners: &[u32]) -> Result<Scope, AllocError>
    requires { length owners.now ≡ length routines.now }
    ensures { IfOk result (λ numbers. (ds : List Defined) →
        map (λ d. d.routine) ds ≡ map (λ r. r.now) routines.now →
        map (λ d. d.number) ds ≡ owners.now → AreAmong ds numbers) }
{
    let mut numbers = no_places(alloc)?;
    for place in 0..routines.len() {
        note_alone(&mut numbers, owners[place], routines[place], place)?;
    }
    Ok(numbers)
}

fn routine_at<'a>(routines: &[&'a Routine], number: u32) -> Option<&'a Routine>
    ensures { result ≡ slice_get routines.now number }
{
    routines.get(number as usize).copied()
}

// Whether the class with this place is an event.
fn is_event_at(sizes: &Sizes, place: usize) -> bool
    ensures { result ≡ is_event_in (class_at sizes.now place) }
{
    match sizes.class(place) {
        Some(class) => is_event(class.kind),
        None => false,
    }
}

// Whether objects of this kind have an execution as coroutines have: `coroutine` and `cormonitor`.
fn has_execution(kind: Kind) -> bool
    ensures { result ≡ has_execution kind }
{
    match kind {
        Kind::Class => false,
        Kind::Coroutine => true,
        Kind::Monitor => false,
        Kind::Cormonitor => true,
        Kind::Task => false,
        Kind::Event => false,
    }
}

// Whether objects of the class with this place have an execution as coroutines have.
fn has_coroutines_at(sizes: &Sizes, place: usize) -> bool
    ensures { result ≡ has_coroutines sizes.now (class_at sizes.now place) }
{
    match sizes.class(place) {
        Some(class) => has_execution(class.kind),
        None => false,
    }
}

// Whether this is the kind of plain coroutines, of mutex objects, of tasks.
fn is_coroutine(kind: Kind) -> bool
    ensures { result ≡ is_coroutine kind }
{
    matches!(kind, Kind::Coroutine)
}

fn is_mutex(kind: Kind) -> bool
    ensures { result ≡ is_mutex kind }
{
    matches!(kind, Kind::Monitor | Kind::Cormonitor | Kind::Task)
}

fn is_task(kind: Kind) -> bool
    ensures { result ≡ is_task kind }
{
    matches!(kind, Kind::Task)
}

// Whether the objects of the class with this place are plain coroutines, mutex objects, tasks.
fn is_coroutine_at(sizes: &Sizes, place: usize) -> bool
    ensures { result ≡ is_coroutine_in (class_at sizes.now place) }
{
    match sizes.class(place) {
        Some(class) => is_coroutine(class.kind),
        None => false,
    }
}

fn is_mutex_at(sizes: &Sizes, place: usize) -> bool
    ensures { result ≡ is_mutex_at sizes.now place }
{
    match sizes.class(place) {
        Some(class) => is_mutex(class.kind),
        None => false,
    }
}

fn is_task_at(sizes: &Sizes, place: usize) -> bool
    ensures { result ≡ has_tasks sizes.now (class_at sizes.now place) }
{
    match sizes.class(place) {
        Some(class) => is_task(class.kind),
        None => false,
    }
}

// The number of a mutex member by its place among those of its class.
fn member_number(place: Option<usize>) -> Option<u8>
    ensures { result ≡ member_by place }
{
    match place {
        Some(place) => {
            if place < MEMBERS as usize {
                Some(1 + place as u8)
            } else {
                None
            }
        }
        None => None,
    }
}

// The number of a mutex member of the class with this place, by the places of the members of all classes.
fn mutex_number_of(members: &[Scope], class: usize, name: &Name) -> Option<u8>
    ensures { (p : Program) → AreExclusive p members.now →
        result ≡ mutex_number_in (class_at p class) name.now }
{
    match members.get(class) {
        Some(places) => {
            let number = member_number(place_in(places, name));
            number
        }
        None => None,
    }
}

// The fields of the classes with these places and those further on, and the places of those that are no events.
fn note_class(
    alloc: Global,
    sizes: &Sizes,
    place: usize,
    class: &Class,
    fields: &mut Vec<FieldTable>,
    objects: &mut Vec<usize>,
) -> Result<(), AllocError>
    requires there { class_at sizes.now place ≡ Some class.now }
    requires fit { FitClasses sizes.now }
    ensures fields { OnOk result (NotesFields sizes.now place class.now fields.old.items
        fields.new.items) }
    ensures objects { OnOk result (objects.new.items
        ≡ objects.old.items ++ object_places (class.now ∷ []) place) }
{
    fields.push(fields_of(alloc, sizes, place, class)?)?;
    if !is_event(class.kind) {
        objects.push(place)?;
    }
    Ok(())
}

// The fields of all classes, and the places of those that are no events.
fn note_classes(
    alloc: Global,
    sizes: &Sizes,
    count: usize,
    fields: &mut Vec<FieldTable>,
    objects: &mut Vec<usize>,
) -> Result<(), AllocError>
    requires count { count ≡ length (classes_of sizes.now.items) }
    requires fit { FitClasses sizes.now }
    requires fields { fields.old.items ≡ [] }
    requires objects { objects.old.items ≡ [] }
    ensures fields { OnOk result (AreTables sizes.now fields.new.items) }
    ensures objects { OnOk result (objects.new.items
        ≡ object_places (classes_of sizes.now.items) 0) }
{
    for place in 0..count {
        match sizes.class(place) {
            Some(class) => note_class(alloc, sizes, place, class, fields, objects)?,
            None => return Ok(()),
        }
    }
    Ok(())
}

// The place of the class of a number, from 1 on, among the places of the classes that are no events.
fn place_of(objects: &[usize], number: u32) -> Option<usize>
    ensures { result ≡ place_among objects.now number }
{
    if number == 0 {
        return None;
    }
    objects.get(number as usize - 1).copied()
}

fn cells_in(sizes: &Sizes, class: usize) -> u32
    requires { FitClasses sizes.now }
    ensures { result ≡ class_cells sizes.now class }
{
    sizes.cells_of_class(class) as u32
}

// A written routine, else one that nobody wrote.
fn routine_or(written: Option<u32>, unwritten: u32) -> ClassRoutine
    ensures { result ≡ routine_or written unwritten }
{
    match written {
        Some(number) => ClassRoutine {
            number,
            written: true,
        },
        None => ClassRoutine {
            number: unwritten,
            written: false,
        },
    }
}

impl ClassesByName {
    // Of a program with so many classes.
    fn new(alloc: Global, sizes: &Sizes, count: usize) -> Result<ClassesByName, AllocError>
        requires count { count ≡ length (classes_of sizes.now.items) }
        requires fit { FitClasses sizes.now }
        ensures objects { IfOk result (λ c. c.objects.items
            ≡ object_places (classes_of sizes.now.items) 0) }
        ensures fields { IfOk result (λ c. AreTables sizes.now c.fields.items) }
        ensures events { IfOk result (λ c. IsPlaces
            (event_names (classes_of sizes.now.items)) c.events) }
    {
        let mut fields = Vec::new(alloc);
        let mut objects = Vec::new(alloc);
        note_classes(alloc, sizes, count, &mut fields, &mut objects)?;
        let events = events_of(alloc, sizes, count)?;
        Ok(ClassesByName {
            objects,
            fields,
            events,
        })
    }
}

impl RoutinesByName {
    // Of these routines, where so many numbers of classes are told apart. `owners` are the numbers of their classes.
    fn new(
        alloc: Global,
        count: usize,
        routines: &[&Routine],
        owners: &[u32],
    ) -> Result<RoutinesByName, AllocError>
        requires { length owners.now ≡ length routines.now }
        ensures { IfOk result (λ r. (ds : List Defined) →
            map (λ d. d.routine) ds ≡ map (λ r. r.now) routines.now →
            map (λ d. d.number) ds ≡ owners.now →
            KnowsRoutines ds count r.alone r.tables.items r.builders) }
    {
        let alone = numbers_of(alloc, routines, owners)?;
        let tables = tables_of(alloc, count, routines, owners)?;
        let builders = builders_of(alloc, routines, owners)?;
        Ok(RoutinesByName {
            alone,
            tables,
            builders,
        })
    }
}

impl<'a> ProgramNames<'a> {
    /// The names of a program with this numbering. Memory is wanting where it has 2^32 routines or more.
    pub fn new(
        alloc: Global,
        sizes: &'a Sizes<'a>,
        numbering: Numbering<'a>,
    ) -> Result<ProgramNames<'a>, AllocError>
        requires numbering { IsNumbering sizes.now numbering }
        requires fit { FitClasses sizes.now }
        ensures { IfOk result (λ names. names ≡ sizes.now) }
    {
        let count = numbering.classes.len();
        let classes = ClassesByName::new(alloc, sizes, count)?;
        let routines = RoutinesByName::new(
            alloc,
            count + 1,
            &numbering.routines,
            &numbering.owners,
        )?;
        Ok(ProgramNames {
            sizes,
            numbering,
            classes,
            routines,
        })
    }

    /// What is known of the sizes of the program.
    pub fn sizes(&self) -> &Sizes<'a>
        ensures { result.now ≡ self.now }
    {
        self.sizes
    }

    /// The cells of an object of the class with this place; 0 where there is no such class.
    pub fn cells_of_class(&self, class: usize) -> u32
        ensures { result ≡ class_cells self.now class }
    {
        cells_in(self.sizes, class)
    }

    /// What a declaration of this base makes, if it is none of scalars, references or conditions.
    pub fn made(&self, base: &Base) -> Option<Made>
        ensures { making self.now base.now ≡ option_map (making_of self.now) result }
    {
        let made = made_by(self.sizes, base);
        made
    }

    /// The constant of a name. One that has no value counts as 0.
    pub fn constant(&self, name: &Name) -> Option<ConstantMeaning>
        ensures { MatchOption result (constant_named (constants_of self.now.items) name.now
            ≡ None) (λ v. IsFixed self.now name.now v) }
    {
        match self.sizes.constant(name) {
            Some(constant) => Some(ConstantMeaning {
                told: value_of_base(self.sizes, &constant.base),
                value: self.sizes.value_of(name).unwrap_or(0),
            }),
            None => None,
        }
    }

    /// The number of the routine that is called by this name alone.
    pub fn routine(&self, name: &Name) -> Option<u32>
        ensures { result ≡ routine_from (routines_of self.now) 0 name.now }
    {
        let number = self.routines.alone.find(name.bytes());
        number
    }

    /// The parameters of a routine; none where there is no written routine of this number.
    pub fn params(&self, number: u32) -> &[Param]
        ensures { result.now ≡ params_of self.now number }
    {
        match routine_at(&self.numbering.routines, number) {
            Some(routine) => params_of(sig_of(routine)),
            None => &[],
        }
    }

    /// What is told of the value that a routine hands over.
    pub fn result(&self, number: u32) -> ExprMeaning
        ensures { (e : Expr) →
            Tells self.now result
            (record { expr = e; ty = scalar (result_of self.now number); standing = AsValue }) }
    {
        match routine_at(&self.numbering.routines, number) {
            Some(routine) => value_of_base(self.sizes, result_of(sig_of(routine))),
            None => ExprMeaning::value(Scalar::Number),
        }
    }

    /// The number of the event of a name; one that is not there counts as 0.
    pub fn event(&self, name: &Name) -> u8
        ensures { result ≡ number_of_event self.now name.now }
    {
        if name.is(b"uUnhandled") {
            return UNHANDLED;
        }
        if name.is(b"RendezvousFailure") {
            return FAILURE;
        }
        number_of(place_in(&self.classes.events, name))
    }

    /// The number of the constructor of the event of a name, where it is written.
    pub fn event_constructor(&self, name: &Name) -> Option<u32>
        ensures { result ≡ event_constructor self.now name.now }
    {
        let number = self.routines.builders.find(name.bytes());
        number
    }

    /// The place of the class of this number, none for 0.
    pub fn class_of(&self, number: u32) -> Option<usize>
        ensures { result ≡ place_of self.now number }
    {
        place_of(&self.classes.objects, number)
    }

    /// The field of a name in the class with this place.
    pub fn field(&self, class: usize, name: &Name) -> Option<Field>
        ensures { MatchOption result (no_field self.now class name.now (class_at self.now class))
            (λ v. IsField self.now class name.now v) }
    {
        let field = field_of(&self.classes.fields, class, name);
        field
    }

    /// The field with this place among those of the class with this place.
    pub fn field_at(&self, class: usize, place: usize) -> Option<Field>
        ensures { MatchOption result (no_field_at place (class_at self.now class))
            (λ v. IsNthField self.now class place v) }
    {
        let field = nth_field(&self.classes.fields, class, place);
        field
    }

    /// How many fields the class with this place has.
    pub fn field_count(&self, class: usize) -> usize
        ensures { result ≡ count_fields (class_at self.now class) }
    {
        let count = count_of(&self.classes.fields, class);
        count
    }

    // The routines of the class with this place.
    fn routines_of(&self, class: usize) -> Option<&RoutineTable>
        ensures { MatchOption result (class_at self.now class
            ≡ None) (λ t. HasRoutines self.now class t.now) }
    {
        let table = table_of(&self.routines.tables, &self.numbering.classes, class);
        table
    }

    /// The number of the member of a name in the class with this place. An event has none.
    pub fn member(&self, class: usize, name: &Name) -> Option<u32>
        ensures { result ≡ member_at self.now class name.now (class_at self.now class) }
    {
        if is_event_at(self.sizes, class) {
            return None;
        }
        match self.routines_of(class) {
            Some(table) => member_in(table, name),
            None => None,
        }
    }

    /// Whether objects of the class with this place, if there is one, have an execution as coroutines have: its kind is `coroutine` or
    /// `cormonitor`.
    pub fn has_coroutines(&self, class: Option<usize>) -> bool
        ensures { result ≡ has_coroutines self.now (class_by self.now class) }
    {
        match class {
            Some(class) => has_coroutines_at(self.sizes, class),
            None => false,
        }
    }

    /// Whether objects of the class with this place are plain coroutines.
    pub fn is_coroutine(&self, class: usize) -> bool
        ensures { result ≡ is_coroutine_in (class_at self.now class) }
    {
        let coroutine = is_coroutine_at(self.sizes, class);
        coroutine
    }

    /// Whether objects of the class with this place are mutex objects.
    pub fn is_mutex(&self, class: usize) -> bool
        ensures { result ≡ is_mutex_at self.now class }
    {
        let mutex = is_mutex_at(self.sizes, class);
        mutex
    }

    /// Whether they are tasks.
    pub fn is_task(&self, class: usize) -> bool
        ensures { result ≡ has_tasks self.now (class_at self.now class) }
    {
        let task = is_task_at(self.sizes, class);
        task
    }

    /// The number of the class with this place.
    pub fn class_number(&self, class: usize) -> u32
        requires { class < length (classes_of self.now.items) }
        ensures { result ≡ number_at self.now class }
    {
        number_at(&self.numbering.classes, class)
    }

    /// The number of a mutex member of the class with this place, if the name is that of one.
    pub fn mutex_number(&self, class: usize, name: &Name) -> Option<u8>
        ensures { result ≡ mutex_number_in (class_at self.now class) name.now }
    {
        let number = mutex_number_of(&self.numbering.members, class, name);
        number
    }

    /// Whether a routine of the class with this place, if it is in one, is a mutex member of it, and no destructor.
    pub fn is_mutex_member(&self, class: Option<usize>, sig: &Sig) -> bool
        ensures { result ≡ has_number_in self.now (class_by self.now class) sig.now }
    {
        match class {
            Some(class) => is_plain(sig.role) && self.mutex_number(class, name_of(sig)).is_some(),
            None => false,
        }
    }

    /// The number of the main of the coroutines or of the tasks of the class with this place; 0 where there is none.
    pub fn main_of(&self, class: usize) -> u32
        requires { class < length (classes_of self.now.items) }
        ensures { result ≡ main_at self.now class }
    {
        match self.routines_of(class) {
            Some(table) => main_number_in(table),
            None => 0,
        }
    }

    /// The cells of one element of a base that names this class of objects, or none, and what is known by its number or not.
    pub fn element_size(&self, class: Option<usize>, numbered: bool) -> u32
        ensures { (b : Named) → class_made (making self.now b) ≡ class →
            is_numbered (making self.now b) ≡ numbered →
            result ≡ shape_cells (base_shape self.now b) }
    {
        if numbered {
            return 1;
        }
        match class {
            Some(class) => cells_in(self.sizes, class),
            None => 1,
        }
    }

    /// What builds the objects of the class with this place.
    pub fn constructor_of(&self, class: usize) -> ClassRoutine
        requires { class < length (classes_of self.now.items) }
        ensures { result ≡ routine_for self.now class role.Constructor }
    {
        let unwritten = number_at(&self.numbering.constructors, class);
        match self.routines_of(class) {
            Some(table) => routine_or(table.built_by, unwritten),
            None => routine_or(None, unwritten),
        }
    }

    /// What destroys the objects of the class with this place.
    pub fn destructor_of(&self, class: usize) -> ClassRoutine
        requires { class < length (classes_of self.now.items) }
        ensures { result ≡ routine_for self.now class role.Destructor }
    {
        let unwritten = number_at(&self.numbering.destructors, class);
        match self.routines_of(class) {
            Some(table) => routine_or(table.destroyed_by, unwritten),
            None => routine_or(None, unwritten),
        }
    }
}

fn number_at(numbers: &[u32], place: usize) -> u32
    ensures { result ≡ get_or numbers.now place 0 }
{
    match numbers.get(place) {
        Some(number) => *number,
        None => 0,
    }
}
