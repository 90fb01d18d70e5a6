// Variables, and the names of a group.
#![tactic(auto, using(crate::proofs::Firsts::firsts))]

ghost use Rattle.std.specs.Prelude.{◌≡◌, ◌≤◌, ◌+◌, ◌∷◌, [], None, Some, IfOk, OnOk, IfErr, map, option_map};
ghost use Rattle.pascal_tree.specs.Scopes.{words_of_means};
ghost use Rattle.pascal_tree.specs.Scopes as scopes;
ghost use Rattle.pascal_tree.specs.SeenProgram.{seen_names, seen_group, seen_vars};
ghost use Rattle.pascal_tree.specs.DeclarationRules.{are_bounds, judged_kind, judged_type_name, scalar_named, type_of_kind, one_by_one, all_names, behind_names, judged_group, judged_groups, judged_vars, behind_group, behind_groups, behind_vars, frame_words, first_broken};
ghost use Rattle.pascal_tree.specs.declared.declaration.Kind.TheVariants as kinds;
ghost use Rattle.pascal_check.specs.Faults.{IsFault};
ghost use Rattle.pascal_check.specs.Frames.{judged_within};
ghost use Rattle.pascal_check.specs.Holds.{means_held};

use crate::constants::{Valued, judge_constant};
use crate::fault::CheckFault;
use crate::meaning::Meaning;
use crate::scope::Scope;
use crate::types::{is_same, words};
use pascal_tree::constant::Constant;
use pascal_tree::declaration::{Group, Kind, Names, Vars};
use pascal_tree::leaf::Name;
use pascal_tree::{Broken, Means, Scalar, VariableType};

/// What a name of a group holds: a variable, or a reference to one.
#[derive(Clone, Copy)]
pub enum Held {
    Variable(VariableType),
    Reference(Scalar),
}

impl Held {
    fn means(self) -> Means
        ensures { result ≡ means_held self }
    {
        match self {
            Held::Variable(type_) => Means::Variable(type_),
            Held::Reference(type_) => Means::Reference(type_),
        }
    }

    // How many words it takes, at most 65,536.
    fn words(self) -> u32
        ensures words { result ≡ words_of_means (means_held self) }
        ensures most { result ≤ 65536 }
    {
        match self {
            Held::Variable(type_) => words(type_),
            Held::Reference(_) => 2,
        }
    }
}

/// How many words the names of a list may take, and the rule that is broken where they take more.
#[derive(Clone, Copy)]
pub struct Limit {
    pub rule: u8,
    pub most: u32,
}

/// The limit of a frame.
const FRAME: Limit = Limit {
    rule: 6,
    most: 4096,
};

/// The variables of a block or of the program, behind so many words of their frame, and the scope
/// behind them.
pub fn judge_vars(scope: &mut Scope, used: u32, vars: &Option<Vars>) -> Result<(), CheckFault>
    requires used { used ≡ frame_words scope.old }
    requires most { used ≤ 4096 }
    ensures ok { OnOk result
        (first_broken (judged_vars scope.old (option_map seen_vars vars.now)) ≡ None) }
    ensures scope { OnOk result (scope.new ≡ behind_vars scope.old (option_map seen_vars vars.now)) }
    ensures broken { IfErr result
        (IsFault (judged_vars scope.old (option_map seen_vars vars.now))) }
{
    let Some(vars) = vars else {
        return Ok(());
    };
    let used = judge_group(scope, used, &vars.first)?;
    judge_groups(scope, used, &vars.rest)
}

fn judge_groups(scope: &mut Scope, used: u32, groups: &[Group]) -> Result<(), CheckFault>
    requires used { used ≡ frame_words scope.old }
    requires most { used ≤ 4096 }
    ensures ok { OnOk result
        (first_broken (judged_groups scope.old (map seen_group groups.now)) ≡ None) }
    ensures scope { OnOk result (scope.new ≡ behind_groups scope.old (map seen_group groups.now)) }
    ensures broken { IfErr result
        (IsFault (judged_groups scope.old (map seen_group groups.now))) }
{
    let mut used = used;
    for group in groups {
        used = judge_group(scope, used, group)?;
    }
    Ok(())
}

// Variables of one type: the type, and then their names.
fn judge_group(scope: &mut Scope, used: u32, group: &Group) -> Result<u32, CheckFault>
    requires used { used ≡ frame_words scope.old }
    requires most { used ≤ 4096 }
    ensures ok { OnOk result (first_broken (judged_group scope.old (seen_group group.now)) ≡ None) }
    ensures scope { OnOk result (scope.new ≡ behind_group scope.old (seen_group group.now)) }
    ensures used { IfOk result (λ n. n ≡ frame_words scope.new) }
    ensures most { IfOk result (λ n. n ≤ 4096) }
    ensures broken { IfErr result (IsFault (judged_group scope.old (seen_group group.now))) }
{
    let held = Held::Variable(judge_kind(scope, &group.kind)?);
    declare_names(scope, FRAME, used, held, &group.names)
}

fn judge_kind(scope: &Scope, kind: &Kind) -> Result<VariableType, Broken>
    ensures ok { OnOk result (first_broken (judged_kind scope.now kind.now) ≡ None) }
    ensures typed { IfOk result (λ t. type_of_kind scope.now kind.now ≡ t) }
    ensures broken { IfErr result (λ b. first_broken (judged_kind scope.now kind.now) ≡ Some b) }
{
    match kind {
        Kind::Name(name) => judge_plain_kind(scope, name),
        Kind::Array {
            line,
            low,
            high,
            element,
            ..
        } => judge_array(scope, *line, low, high, element),
    }
}

fn judge_plain_kind(scope: &Scope, name: &Name) -> Result<VariableType, Broken>
    ensures ok { OnOk result (first_broken (judged_kind scope.now (kinds.Name name.now)) ≡ None) }
    ensures typed { IfOk result (λ t. type_of_kind scope.now (kinds.Name name.now) ≡ t) }
    ensures broken { IfErr result
        (λ b. first_broken (judged_kind scope.now (kinds.Name name.now)) ≡ Some b) }
{
    let found = judge_type_name(scope, name)?;
    Ok(VariableType::Plain(found))
}

// An array type, whose ARRAY stands on this line.
fn judge_array(
    scope: &Scope,
    line: u32,
    low: &Constant,
    high: &Constant,
    element: &Name,
) -> Result<VariableType, Broken>
    ensures ok { OnOk result (first_broken (judged_kind scope.now
        (kinds.Array line 0 low.now 0 high.now 0 0 element.now)) ≡ None) }
    ensures typed { IfOk result (λ t. type_of_kind scope.now
        (kinds.Array line 0 low.now 0 high.now 0 0 element.now) ≡ t) }
    ensures broken { IfErr result (λ b. first_broken (judged_kind scope.now
        (kinds.Array line 0 low.now 0 high.now 0 0 element.now)) ≡ Some b) }
{
    let from = judge_constant(scope, low)?;
    let to = judge_constant(scope, high)?;
    let found = judge_type_name(scope, element)?;
    if are_bounds(from, to) {
        Ok(VariableType::Array {
            low: from.value,
            high: to.value,
            element: found,
        })
    } else {
        Err(Broken { rule: 5, line })
    }
}

// Whether two constants are the bounds of an array, in their order.
fn are_bounds(low: Valued, high: Valued) -> bool
    ensures { result ≡ are_bounds (Some (record { type = low.type_; value = low.value }))
        (Some (record { type = high.type_; value = high.value })) }
{
    is_same(low.type_, Scalar::Integer)
        && is_same(high.type_, Scalar::Integer)
        && low.value <= high.value
}

// The scalar type that a name means, if it means one.
fn type_named(scope: &Scope, name: &Name) -> Option<Scalar>
    ensures { result ≡ scalar_named scope.now name.now }
{
    match scope.meaning(name) {
        Some(Meaning::TypeName(found)) => Some(found),
        _ => None,
    }
}

/// A name at the place of a type, and the type.
pub fn judge_type_name(scope: &Scope, name: &Name) -> Result<Scalar, Broken>
    ensures ok { OnOk result (judged_type_name scope.now name.now ≡ None) }
    ensures typed { IfOk result (λ t. scalar_named scope.now name.now ≡ Some t) }
    ensures broken { IfErr result (λ b. judged_type_name scope.now name.now ≡ Some b) }
{
    match type_named(scope, name) {
        Some(found) => Ok(found),
        None => Err(Broken {
            rule: 4,
            line: name.line,
        }),
    }
}

/// Declares the names of a group one by one, behind so many words of their frame, and counts theirs:
/// each is one that the list doesn't have, and none passes the limit.
pub fn declare_names(
    scope: &mut Scope,
    limit: Limit,
    used: u32,
    held: Held,
    names: &Names,
) -> Result<u32, CheckFault>
    requires used { used ≡ frame_words scope.old }
    requires most { used ≤ limit.most }
    requires limit { limit.most ≤ 4096 }
    ensures ok { OnOk result (first_broken (one_by_one (judged_within limit.rule limit.most) scope.old
        (means_held held) (all_names (seen_names names.now))) ≡ None) }
    ensures scope { OnOk result (scope.new
        ≡ behind_names scope.old (means_held held) (all_names (seen_names names.now))) }
    ensures used { IfOk result (λ n. n ≡ frame_words scope.new) }
    ensures most { IfOk result (λ n. n ≤ limit.most) }
    ensures broken { IfErr result (IsFault (one_by_one (judged_within limit.rule limit.most) scope.old
        (means_held held) (all_names (seen_names names.now)))) }
{
    let used = declare_name(scope, limit, used, held, &names.first)?;
    declare_more(scope, limit, used, held, &names.rest)
}

fn declare_more(
    scope: &mut Scope,
    limit: Limit,
    used: u32,
    held: Held,
    names: &[(u32, Name)],
) -> Result<u32, CheckFault>
    requires used { used ≡ frame_words scope.old }
    requires most { used ≤ limit.most }
    requires limit { limit.most ≤ 4096 }
    ensures ok { OnOk result (first_broken (one_by_one (judged_within limit.rule limit.most) scope.old
        (means_held held) (map (λ n. n.1) names.now)) ≡ None) }
    ensures scope { OnOk result (scope.new
        ≡ behind_names scope.old (means_held held) (map (λ n. n.1) names.now)) }
    ensures used { IfOk result (λ n. n ≡ frame_words scope.new) }
    ensures most { IfOk result (λ n. n ≤ limit.most) }
    ensures broken { IfErr result (IsFault (one_by_one (judged_within limit.rule limit.most) scope.old
        (means_held held) (map (λ n. n.1) names.now))) }
{
    let mut total = used;
    for (_, name) in names {
        total = declare_name(scope, limit, total, held, name)?;
    }
    Ok(total)
}

fn declare_name(
    scope: &mut Scope,
    limit: Limit,
    used: u32,
    held: Held,
    name: &Name,
) -> Result<u32, CheckFault>
    requires used { used ≡ frame_words scope.old }
    requires most { used ≤ limit.most }
    requires limit { limit.most ≤ 4096 }
    ensures ok { OnOk result (first_broken
        (judged_within limit.rule limit.most scope.old (means_held held) name.now) ≡ None) }
    ensures scope { OnOk result
        (scope.new ≡ scopes.declare scope.old name.now.letters (means_held held)) }
    ensures used { IfOk result (λ n. n ≡ frame_words scope.new) }
    ensures most { IfOk result (λ n. n ≤ limit.most) }
    ensures broken { IfErr result (IsFault
        (judged_within limit.rule limit.most scope.old (means_held held) name.now)) }
{
    if scope.declares(name) {
        return Err(CheckFault::Semantic {
            line: name.line,
            rule: 1,
        });
    }
    let total = used + held.words();
    if limit.most < total {
        return Err(CheckFault::Semantic {
            line: name.line,
            rule: limit.rule,
        });
    }
    scope.declare(name, held.means())?;
    Ok(total)
}
