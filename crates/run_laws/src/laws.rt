//! Laws about programs, from the definitions of running alone: the contracts of functions that do nothing.
ghost use Rattle.std.specs.Prelude.{◌≡◌, ℕ, ◌+◌, ◌<◌, ◌≤◌, List, [], ◌∷◌, ◌++◌, length, drop, filter, map, not, ◌==◌, slice_get, Some, if◌then◌else◌, Option, None, is_some, Ok, Bool, Contains, IsTrue, IfOk, true, false};
ghost use Rattle.std.specs.List.{filter_map, list_all, list_any};
ghost use Rattle.ops_base.specs.declared.actions.Action.{Action};
ghost use Rattle.ops_base.specs.declared.actions.Term.{Term};
ghost use Rattle.ops_base.specs.declared.commands.Command.{Command};
ghost use Rattle.ops_base.specs.declared.commands.Command.TheVariants.{Add};
ghost use Rattle.ops_base.specs.declared.commands.Fixed.{Fixed};
ghost use Rattle.ops_base.specs.declared.conditions.Condition.{Condition};
ghost use Rattle.ops_base.specs.declared.conditions.Part.{Part};
ghost use Rattle.ops_base.specs.declared.conditions.Part.TheVariants.{One, Group};
ghost use Rattle.ops_base.specs.declared.conditions.Test.{Test};
ghost use Rattle.ops_base.specs.declared.direct.Partial.{Partial};
ghost use Rattle.ops_base.specs.declared.elements.Change.TheVariants.{Remove};
ghost use Rattle.ops_base.specs.declared.elements.Class.{Class};
ghost use Rattle.ops_base.specs.declared.elements.Element.{Element};
ghost use Rattle.ops_base.specs.declared.matching.Binding.{Binding};
ghost use Rattle.ops_base.specs.declared.rules.Inst.{Inst};
ghost use Rattle.ops_base.specs.declared.rules.Rule.{Rule};
ghost use Rattle.ops_base.specs.declared.values.Sym.{Sym};
ghost use Rattle.ops_base.specs.declared.values.Value.{Value};
ghost use Rattle.ops_base.specs.ConflictSet.{conflict_set, empty_partial, insts_of, matches_of, walk};
ghost use Rattle.ops_base.specs.Instances.{AreOf};
ghost use Rattle.ops_base.specs.Live.{moved_insts, without};
ghost use Rattle.ops_base.specs.Matching.{after_tests, match_of};
ghost use Rattle.ops_base.specs.Names.{Spellings};
ghost use Rattle.ops_base.specs.Valid.{is_attribute};
ghost use Rattle.ops_base.specs.WorkingMemory.{HasRisingTags, tags_of};
ghost use Rattle.ops_io.specs.Coming.{Coming};
ghost use Rattle.ops_meaning.specs.Acting.{Setting, Given, ActState, actions_of, action_done, actions_done, begun, evaluated, values_placed};
ghost use Rattle.ops_meaning.specs.Effects.{told_as, writes};
ghost use Rattle.ops_meaning.specs.Kept.{AreFilledFrom};
ghost use Rattle.ops_meaning.specs.Layout.{inst_text, kept_line, lines_at, unknown_line};
ghost use Rattle.ops_meaning.specs.Partials.{left_side, partial_tags};
ghost use Rattle.ops_meaning.specs.Running.{Course, Session, Turned, added, all_added, command_done, commands_done, element_lines, ending_of, fired_on, firing, has_break, in_force, is_back, lists, meets, place_after, removals, rule_named, session_of, standing_by, states_kept, taken_out, turned_on};
ghost use Rattle.run_laws.specs.Beginning.{BeginsAsMatched};
ghost use Rattle.run_laws.specs.Computing.{OperandsAre, QuotientsAre, SumsAre};
ghost use Rattle.run_laws.specs.Predicates.{EqualityHolds, OrderHolds, KindHolds};
ghost use Rattle.run_laws.specs.Cuts.{GoesOnWith};
ghost use Rattle.run_laws.specs.Elements.{AreFieldsOf, AreWhole};
ghost use Rattle.run_laws.specs.Ending.{IsOfSession};
ghost use Rattle.run_laws.specs.Excising.{AreNamedApart, has_name, is_named, left_by, left_inst, left_number, names_told};
ghost use Rattle.run_laws.specs.Finding.{AllFind, EachAction, LeadTo, RemovalsFind, SeesTheSame, WalkFinds, command_finds, condition_finds, is_single, test_finds, tests_find};
ghost use Rattle.run_laws.specs.Firings.{EachFiring, FindsAll};
ghost use Rattle.run_laws.specs.Patterns.{condition_with, meeting};
ghost use Rattle.run_laws.specs.Placing.{StandAt};
ghost use Rattle.run_laws.specs.Programs.{AreValid};
ghost use Rattle.run_laws.specs.Ranking.{HasRank, IsRanking};
ghost use Rattle.run_laws.specs.Standing.{ranking_in, stands_in};
ghost use Rattle.run_laws.specs.Telling.{AreTold, told_line};
ghost use Rattle.run_laws.specs.Undoing.{FireAlone, FireTo, IsUndone, ends_the_trail, untrailed};
ghost use Rattle.why.specs.declared.explaining.BoundInst.{BoundInst};
ghost use Rattle.why.specs.declared.explaining.Why.TheVariants.{Found};
ghost use Rattle.why.specs.Bindings.{Binds};
ghost use Rattle.why.specs.Explaining.{explanation, insts_in};
ghost use Rattle.why.specs.Partials.{AreUpTo};
ghost use Rattle.why_lines.specs.WhyLines.{rule_lines};

/// A right side begins with the bindings with which the walk over its conditions accepted the instantiation, and with
/// the instantiation's elements in the cells.
pub fn right_sides_begin_as_matched()
    ensures { (s : Setting) (g : Given) (i : Inst)
        → HasRisingTags g.wm → Contains (conflict_set s.rules g.wm) i → BeginsAsMatched s g i }
{}

/// In a valid program, each test that is reached for an element, also at a member of a group, finds its class, the
/// number of its field, and the variable that it compares with.
pub fn left_sides_find_what_they_name()
    ensures { (s : Setting) (commands : List Command) (wm : List Element) (n : ℕ) (r : Rule)
        → AreValid s commands → slice_get s.rules n ≡ Some r → WalkFinds s.classes wm r.conditions (empty_partial ∷ []) }
{}

/// In a valid program, each action of a right side finds everything that it names in the state in which it is reached:
/// variables, cells, classes, numbers of fields and templates. A term leaves the bindings, the cells, the changes and working
/// memory as they are. It gives exactly one value, unless it is all the values of a vector attribute.
pub fn right_sides_find_what_they_name()
    ensures actions { (s : Setting) (commands : List Command) (column : ℕ) (g : Given) (i : Inst)
        → AreValid s commands → HasRisingTags g.wm → Contains (conflict_set s.rules g.wm) i
        → AllFind s column (actions_of s.rules i.rule) (begun s i g) }
    ensures terms { (classes : List Class) (t : Term) (d : ActState)
        → IfOk (evaluated classes t d) (λ v. SeesTheSame d v.doing) }
    ensures one { (classes : List Class) (t : Term) (d : ActState)
        → IsTrue (is_single t) → IfOk (evaluated classes t d) (λ v. length v.values ≡ 1) }
{}

/// In each firing of a session of a valid program, the elements of working memory and of the cells have exactly the
/// fields of their classes, the right side begins as matched, and it finds everything that it names. The same holds of
/// any firing with which a run continues. The elements that a session leaves when it finishes have exactly the fields
/// of their classes, too.
pub fn firings_find_what_they_name()
    ensures firings { (s : Setting) (limit : ℕ) (commands : List Command) (names : Spellings) (coming : Coming)
        → AreValid s commands → EachFiring FindsAll s limit commands names coming }
    ensures any { (s : Setting) (limit n : ℕ) (before after : List Command) (count : Option ℕ) (names : Spellings)
        → (coming : Coming) (k : Session) (column : ℕ) (i : Inst)
        → AreValid s (before ++ Command.Run count ∷ after) → GoesOnWith s limit before count n names coming k i
        → FindsAll (record (in_force s k) { watch = k.watch }) column i k.course }
    ensures elements { (s : Setting) (limit : ℕ) (commands : List Command) (names : Spellings) (coming : Coming)
        → AreValid s commands
        → IfOk (session_of s limit commands names coming).outcome (λ k. AreWhole s.classes k.course.wm) }
{}

/// If values are placed from a field on that is not past the end, they are in those fields afterwards, and the other
/// fields are unchanged. The field of an attribute is not past the end if the fields are those of its class.
pub fn values_stand_where_they_are_placed()
    ensures stand { (at : ℕ) (values old new : List Value)
        → at ≤ length old → values_placed at values old ≡ Some new → StandAt at values old new }
    ensures within { (c : Class) (field values : ℕ)
        → IsTrue (is_attribute c field) → AreFieldsOf c values → field ≤ values }
{}

/// In a valid program, each command finds the class and the attributes that it names, and has a value for each scalar
/// one.
pub fn commands_find_what_they_name()
    ensures { (s : Setting) (commands : List Command)
        → AreValid s commands → IsTrue (list_all (command_finds s.classes) commands) }
{}

/// An element that an action or a command removes is present when it is removed, so that a trace can show it.
pub fn removals_find_what_they_name()
    ensures actions { (s : Setting) (column : ℕ) (a : Action) (d : ActState)
        → IfOk (action_done s column a d).outcome (λ next. RemovalsFind d.wm (drop (length d.changes) next.changes)) }
    ensures commands { (wm : List Element) (tags : List ℕ) → RemovalsFind wm (removals wm tags) }
    ensures all { (wm : List Element) → HasRisingTags wm → RemovalsFind wm (map Remove (tags_of wm)) }
{}

/// In a valid program, dominance finds what it examines in each member of the conflict set.
pub fn instantiations_have_ranks()
    ensures { (s : Setting) (commands : List Command) (wm : List Element) (i : Inst)
        → AreValid s commands → HasRisingTags wm → Contains (conflict_set s.rules wm) i → HasRank s.rules i }
{}

/// Whatever the program, no session ends with a refused write or out of memory. It ends with a read fault only if its
/// input fails.
pub fn only_the_input_fails()
    ensures { (s : Setting) (limit : ℕ) (commands : List Command) (names : Spellings) (coming : Coming)
        → IsOfSession coming.fails (ending_of (session_of s limit commands names coming).outcome) }
{}

/// With a pattern, `ppwm` shows the elements that a positive condition with these constants would match, in the order
/// of their tags.
pub fn patterns_match_as_conditions()
    ensures meets { (class : ℕ) (puts : List Fixed) (e : Element) (bindings : List Binding)
        → match_of (condition_with class puts) e bindings ≡ (if meets (Some (class, puts)) e then Some bindings else None) }
    ensures listed { (s : Setting) (limit column class : ℕ) (puts : List Fixed) (k : Session)
        → command_done s limit column (Command.Ppwm (Some (class, puts))) k
        ≡ lists column (element_lines k.course.names s.classes (meeting (condition_with class puts) k.course.wm)) k }
    ensures order { (class : ℕ) (puts : List Fixed) (wm : List Element)
        → HasRisingTags wm → HasRisingTags (meeting (condition_with class puts) wm) }
{}

/// The list that `cs` prints is a ranking of the members of the conflict set that have not fired, and no other list is
/// one.
pub fn standing_is_ranked()
    ensures listed { (s : Setting) (limit column : ℕ) (k : Session)
        → command_done s limit column Command.Cs k
        ≡ lists column (map (inst_text k.course.names s.rules) (standing_by (conflict_set s.rules) s.rules k.course)) k }
    ensures ranked { (rules : List Rule) (m : Course)
        → HasRisingTags m.wm → IsRanking rules m (standing_by (conflict_set rules) rules m) }
    ensures only { (rules : List Rule) (m : Course) (other : List Inst)
        → HasRisingTags m.wm → IsRanking rules m other → other ≡ standing_by (conflict_set rules) rules m }
{}

/// A property proved of each test, each condition, each member of a group and each action in turn holds of every one
/// that is reached after those before it. A property proved of each firing of a session holds of every firing with
/// which a run continues.
pub fn nothing_is_passed_over()
    ensures tests { (c : Class) (e : Element) (before after : List Test) (t : Test) (bindings next : List Binding)
        → IsTrue (tests_find c e (before ++ t ∷ after) bindings) → after_tests before e bindings ≡ Some next
        → IsTrue (test_finds c t next) }
    ensures conditions { (classes : List Class) (wm : List Element) (before after : List Part) (c : Condition)
        → (ps : List Partial) (p : Partial) (e : Element)
        → WalkFinds classes wm (before ++ One c ∷ after) ps → Contains (walk wm before ps) p → Contains wm e
        → IsTrue (condition_finds classes c p.bindings e) }
    ensures members { (classes : List Class) (wm : List Element) (before after : List Part) (first rest : List Condition) (c : Condition)
        → (ps : List Partial) (p : Partial) (next : List Binding) (e : Element)
        → WalkFinds classes wm (before ++ Group (first ++ c ∷ rest) ∷ after) ps → Contains (walk wm before ps) p
        → LeadTo wm first p.bindings next → Contains wm e
        → IsTrue (condition_finds classes c next e) }
    ensures actions { (test : Action → ActState → Bool) (s : Setting) (column n : ℕ) (before after : List Action) (a : Action) (d e : ActState)
        → EachAction (λ a d. IsTrue (test a d)) s column (before ++ a ∷ after) d
        → (actions_done s column n before d).outcome ≡ Ok e → IsTrue (test a e) }
    ensures firings { (test : Setting → ℕ → Inst → Course → Bool) (s : Setting) (limit n : ℕ) (before after : List Command) (count : Option ℕ)
        → (names : Spellings) (coming : Coming) (k : Session) (i : Inst)
        → EachFiring (λ s column i m. IsTrue (test s column i m)) s limit (before ++ Command.Run count ∷ after) names coming
        → GoesOnWith s limit before count n names coming k i
        → (column : ℕ) × IsTrue (test (record (in_force s k) { watch = k.watch }) column i k.course) }
{}

/// Small formulas with their results: numbers at the limit, quotients and remainders of each sign, and the order in
/// which operands are computed.
pub fn formulas_give()
    ensures sums { SumsAre }
    ensures quotients { QuotientsAre }
    ensures operands { OperandsAre }
{}

/// For which symbols and numbers each predicate holds.
pub fn predicates_hold()
    ensures equality { EqualityHolds }
    ensures order { OrderHolds }
    ensures kind { KindHolds }
{}

/// In these laws, an instantiation stands if it is in the conflict set and has not fired. If a production is removed,
/// exactly the instantiations of the other productions that stood before still stand, under the new numbers of their
/// productions. If one is added under a name that no production has, its instantiations stand in addition to those that
/// stood. If a production has its name, that one is removed first. In each case, the others stay in their order of
/// dominance. The marks of a session are marks of productions in force, also after a firing, and after each production
/// that is added.
pub fn others_stand_as_before()
    ensures taken { (n : ℕ) (k : Session) → stands_in (taken_out n k) ≡ moved_insts n (stands_in k) }
    ensures added { (r : Rule) (k : Session) → rule_named k.rules r.name ≡ None → AreOf k.rules k.course.fired
        → stands_in (added r k) ≡ stands_in k ++ insts_of (length k.rules) (matches_of k.course.wm r.conditions) }
    ensures replaced { (r : Rule) (n : ℕ) (k : Session) → rule_named k.rules r.name ≡ Some n → AreOf k.rules k.course.fired
        → stands_in (added r k) ≡ moved_insts n (stands_in k) ++ insts_of (length (without n k.rules)) (matches_of k.course.wm r.conditions) }
    ensures taken_order { (n : ℕ) (k : Session) → HasRisingTags k.course.wm → ranking_in (taken_out n k) ≡ moved_insts n (ranking_in k) }
    ensures added_order { (r : Rule) (k : Session)
        → HasRisingTags k.course.wm → rule_named k.rules r.name ≡ None → AreOf k.rules k.course.fired
        → filter (λ i. not (i.rule == length k.rules)) (ranking_in (added r k)) ≡ ranking_in k }
    ensures replaced_order { (r : Rule) (n : ℕ) (k : Session)
        → HasRisingTags k.course.wm → rule_named k.rules r.name ≡ Some n → AreOf k.rules k.course.fired
        → filter (λ i. not (i.rule == length (without n k.rules))) (ranking_in (added r k)) ≡ moved_insts n (ranking_in k) }
    ensures marks { (s : Setting) (limit : ℕ) (commands : List Command) (names : Spellings) (coming : Coming)
        → IfOk (session_of s limit commands names coming).outcome (λ k. AreOf k.rules k.course.fired) }
    ensures marks_fired { (s : Setting) (column : ℕ) (i : Inst) (m : Course)
        → IfOk (firing s column i m).outcome (λ t. AreOf s.rules t.course.fired) }
    ensures marks_added { (r : Rule) (k : Session) → AreOf k.rules k.course.fired → AreOf (added r k).rules (added r k).course.fired }
{}

/// `excise` leaves exactly the productions that have none of its names, in their order, each with its break and its
/// marks under its new number, and changes nothing else. Of their instantiations, those that stand stay in their order
/// of dominance. It reports each name that no production has, and each name that was given before. No two productions
/// of a session have the same name.
pub fn excise_takes_out_what_it_names()
    ensures excised { (s : Setting) (limit column : ℕ) (names : List Sym) (k : Session)
        → AreNamedApart k.rules
        → command_done s limit column (Command.Excise names) k
        ≡ writes (lines_at column (map (unknown_line k.course.names) (names_told k.rules [] names))) (left_by (is_named names) k) }
    ensures order { (names : List Sym) (k : Session)
        → HasRisingTags k.course.wm → AreNamedApart k.rules
        → ranking_in (left_by (is_named names) k) ≡ filter_map (left_inst (is_named names) k.rules) (ranking_in k) }
    ensures numbered { (goes : Rule → Bool) (rules : List Rule) (n : ℕ) (r : Rule)
        → slice_get rules n ≡ Some r → is_some (left_number goes rules n) ≡ not (goes r) }
    ensures numbers { (goes : Rule → Bool) (k : Session) (n m : ℕ)
        → left_number goes k.rules n ≡ Some m
        → (slice_get (left_by goes k).rules m ≡ slice_get k.rules n) × (slice_get (left_by goes k).breaks m ≡ slice_get k.breaks n) }
    ensures apart { (s : Setting) (limit : ℕ) (before after : List Command) (names : Spellings) (coming : Coming)
        → AreValid s (before ++ after) → IfOk (session_of s limit before names coming).outcome (λ k. AreNamedApart k.rules) }
{}

/// For a production and a number of its parts, `matches` lists the tags of all partial matches of the parts so far, and
/// nothing else, in lexicographic order, each once.
pub fn partial_matches_are_listed()
    ensures { (rules : List Rule) (wm : List Element) (rule k : ℕ)
        → HasRisingTags wm → rule < length rules → AreUpTo rules wm rule k (partial_tags wm (left_side rules rule) k) }
{}

/// After some commands of a valid program, what is in force and the commands still to come are a valid program. So the
/// laws on valid programs hold of productions that were given late or built, too.
pub fn programs_stay_valid()
    ensures { (s : Setting) (limit : ℕ) (before after : List Command) (names : Spellings) (coming : Coming)
        → AreValid s (before ++ after)
        → IfOk (session_of s limit before names coming).outcome (λ k. AreValid (in_force s k) after) }
{}

/// What a firing builds is in force after it. Each production that it builds is a template with other constants in
/// place of some of its own. They are added as late `p` commands would add them, one after another. The number that a
/// run then keeps for the production that fired is that of the same production, with the same break. It keeps none
/// exactly if one of that name was built.
pub fn what_is_built_is_in_force()
    ensures filled { (s : Setting) (column : ℕ) (i : Inst) (m : Course)
        → IfOk (firing s column i m).outcome (λ t. AreFilledFrom s.templates t.built) }
    ensures late { (s : Setting) (limit column : ℕ) (t : Turned) (k : Session)
        → commands_done s limit column (map Add t.built) (fired_on t.course k) ≡ writes [] (turned_on t k) }
    ensures place { (built : List Rule) (k : Session) (n m : ℕ)
        → n < length k.rules → place_after k.rules built (Some n) ≡ Some m
        → (slice_get (all_added built k).rules m ≡ slice_get k.rules n)
        × (has_break (all_added built k).breaks m ≡ has_break k.breaks n) }
    ensures gone { (built rules : List Rule) (name : Sym) (n : ℕ)
        → rule_named rules name ≡ Some n → is_some (place_after rules built (Some n)) ≡ not (has_name built name) }
{}

/// The values that an instantiation binds are, one by one, the values of the fields that `--why` names before them.
/// Each is from the element that the instantiation has at that place. So a line of `--why` omits none of them.
pub fn bindings_are_told()
    ensures bound { (rules : List Rule) (wm : List Element) (i : Inst) (values : List Value)
        → HasRisingTags wm → Binds rules wm i values → AreTold rules wm i values }
    ensures explained { (rules : List Rule) (wm : List Element) (rule : ℕ) (found : List BoundInst) (b : BoundInst)
        → HasRisingTags wm → rule < length rules → explanation rules wm rule ≡ Found found → Contains found b
        → (b.inst.rule ≡ rule) × AreTold rules wm b.inst b.values }
    ensures lines { (names : Spellings) (classes : List Class) (rules : List Rule) (wm : List Element) (rule : ℕ) (found : List BoundInst)
        → HasRisingTags wm → rule < length rules → explanation rules wm rule ≡ Found found
        → rule_lines names classes rules rule (Found found) ≡ map (told_line names classes rules wm) (insts_in found) }
{}

/// `back` undoes firings. After up to 32 consecutive firings that build no production, it restores working memory, the
/// marks, the last tag and the names as they were before, takes these firings off the trail, changes nothing else, and
/// prints nothing. A run makes consecutive firings, and without templates none of them builds. After a firing that builds a production, neither it nor anything
/// before it can be undone, so the last firings that are kept built none. If fewer are kept, `back` changes nothing and
/// prints how many are kept. `back` of some firings and then of others is `back` of all of them. After a `make`, a
/// `remove` or a late `p`, nothing before it can be undone. In a session without `back`, nothing depends on the trail.
pub fn back_undoes_firings()
    ensures undone { (s t : Setting) (limit column n : ℕ) (k fired : Session)
        → is_some k.trail ≡ true → 1 ≤ n → n ≤ 32 → FireAlone s n k fired
        → (after : Session) × (command_done t limit column (Command.Back n) fired ≡ writes [] after) × IsUndone n k fired after }
    ensures runs { (s : Setting) (limit column : ℕ) (count : Option ℕ) (k : Session)
        → IfOk (command_done s limit column (Command.Run count) k).outcome
        (λ fired. (n : ℕ) × FireTo (record s { watch = k.watch }) n k fired × (fired.course.firings ≡ k.course.firings + n)) }
    ensures built { (t : Turned) (k : Session) (r : Rule) (rest : List Rule) → t.built ≡ r ∷ rest → states_kept (turned_on t k) ≡ [] }
    ensures alone { (s : Setting) (m n : ℕ) (k fired : Session)
        → FireTo s (m + n) k fired → n ≤ length (states_kept fired)
        → (middle : Session) × FireTo s m k middle × FireAlone s n middle fired }
    ensures plain { (s : Setting) (n : ℕ) (k fired : Session)
        → s.templates ≡ [] → FireTo s n k fired → FireAlone s n k fired }
    ensures few { (s : Setting) (limit column n : ℕ) (k : Session)
        → length (states_kept k) < n
        → command_done s limit column (Command.Back n) k ≡ lists column (kept_line (length (states_kept k)) ∷ []) k }
    ensures twice { (s t u : Setting) (limit column m n : ℕ) (k : Session)
        → 1 ≤ m → 1 ≤ n → m + n ≤ length (states_kept k)
        → IfOk (command_done s limit column (Command.Back m) k).outcome
        (λ once. command_done t limit column (Command.Back n) once ≡ command_done u limit column (Command.Back (m + n)) k) }
    ensures emptied { (s : Setting) (limit column : ℕ) (c : Command) (k : Session)
        → ends_the_trail c ≡ true → IfOk (command_done s limit column c k).outcome (λ after. states_kept after ≡ []) }
    ensures kept { (s : Setting) (limit : ℕ) (commands : List Command) (names : Spellings) (coming : Coming)
        → IfOk (session_of s limit commands names coming).outcome (λ k. is_some k.trail ≡ list_any is_back commands) }
    ensures unseen { (s : Setting) (limit column : ℕ) (commands : List Command) (k : Session)
        → list_any is_back commands ≡ false
        → commands_done s limit column commands (untrailed k) ≡ told_as untrailed (λ e. e) (commands_done s limit column commands k) }
{}
