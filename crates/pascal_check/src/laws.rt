// What a tree has that breaks no rule. Each law is in a contract.

ghost use Rattle.std.specs.Prelude.{◌≡◌, ℕ, ◌≤◌, ◌++◌, Bool, true, List, Option, Some, None, ℤ, IsSome};
ghost use Rattle.pascal_tree.specs.Word.{NameAt};
ghost use Rattle.pascal_tree.specs.Expression.{Expr, Index};
ghost use Rattle.pascal_tree.specs.Program.{Vars, Program};
ghost use Rattle.pascal_tree.specs.Scopes.{Scope, means_of};
ghost use Rattle.pascal_tree.specs.ExpressionRules.{Judged, judged_expr, expr_type, judged_name, judged_element_of, judged_called};
ghost use Rattle.pascal_tree.specs.StatementRules.{judged_call, judged_label, judged_constant_name, judged_target, judged_element, judged_control};
ghost use Rattle.pascal_tree.specs.DeclarationRules.{judged_type_name, scalar_named, judged_vars, behind_vars, frame_words, judged, first_broken, broken};
ghost use Rattle.pascal_tree.specs.declared.constant.Constant.{Constant};
ghost use Rattle.pascal_tree.specs.declared.scalar.Scalar.{Scalar};
ghost use Rattle.pascal_check.specs.Has.{IsRoutine, IsFunction, IsLabel};

/// Nodes that stand one behind the other break no rule only where neither part does.
pub fn parts_of_the_unbroken_are_unbroken()
    ensures before { (a b : Judged) → first_broken (a ++ b) ≡ None → first_broken a ≡ None }
    ensures behind { (a b : Judged) → first_broken (a ++ b) ≡ None → first_broken b ≡ None }
{}

/// The first broken rule of a program is that of its nodes.
pub fn a_program_is_its_nodes()
    ensures { (p : Program) → broken p ≡ first_broken (judged p) }
{}

/// Each name that is used has its declaration, and each name at the place of a type is one.
pub fn names_have_their_declarations()
    ensures factors { (s : Scope) (x : NameAt) (for_array : Bool)
        → first_broken (judged_name s x for_array) ≡ None → IsSome (means_of s x.letters) }
    ensures elements { (s : Scope) (x : NameAt) (t : Option Scalar)
        → first_broken (judged_element_of s x t) ≡ None → IsSome (means_of s x.letters) }
    ensures constants { (s : Scope) (x : NameAt)
        → first_broken (judged_constant_name s x) ≡ None → IsSome (means_of s x.letters) }
    ensures targets { (s : Scope) (x : NameAt) (value : Option Scalar) (line : ℕ)
        → first_broken (judged_target s x value line) ≡ None → IsSome (means_of s x.letters) }
    ensures set_elements { (s : Scope) (x : NameAt) (i : Index) (value : Option Scalar) (line : ℕ)
        → first_broken (judged_element s x i value line) ≡ None → IsSome (means_of s x.letters) }
    ensures controls { (s : Scope) (x : NameAt) (bounds : Bool) (line : ℕ)
        → first_broken (judged_control s x bounds line) ≡ None → IsSome (means_of s x.letters) }
    ensures types { (s : Scope) (x : NameAt)
        → judged_type_name s x ≡ None → IsSome (scalar_named s x) }
{}

/// Each expression has its type.
pub fn expressions_have_types()
    ensures { (s : Scope) (e : Expr) → first_broken (judged_expr s e) ≡ None → IsSome (expr_type s e) }
{}

/// Each routine that is called has its parameters, as many as there are arguments, and these suit.
pub fn calls_have_their_parameters()
    ensures statements { (s : Scope) (x : NameAt) (count : ℕ) (suit : Bool)
        → first_broken (judged_call s x count suit) ≡ None
        → (suit ≡ true) × IsRoutine (means_of s x.letters) count }
    ensures factors { (s : Scope) (x : NameAt) (count : ℕ) (suit : Bool) → 1 ≤ count
        → first_broken (judged_called s x count suit) ≡ None
        → (suit ≡ true) × IsFunction (means_of s x.letters) count }
{}

/// Each label of a CASE has a value of the selector's type, which no earlier label has.
pub fn labels_have_values()
    ensures { (s : Scope) (t : Scalar) (earlier : List ℤ) (c : Constant)
        → first_broken (judged_label s (Some t) earlier c) ≡ None → IsLabel s t earlier c }
{}

/// Each frame has its size: behind its variables it takes no more than 4,096 words.
pub fn frames_have_their_size()
    ensures { (s : Scope) (v : Option Vars) → frame_words s ≤ 4096
        → first_broken (judged_vars s v) ≡ None → frame_words (behind_vars s v) ≤ 4096 }
{}
