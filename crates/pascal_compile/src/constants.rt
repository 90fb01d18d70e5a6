// Labels of a CASE, compared with its selector.

ghost use Rattle.std.specs.Prelude.{◌≡◌, ◌+◌, ◌≤◌, ◌^◌, ◌++◌, length, OnOk, IfSome, IfNone};
ghost use Rattle.pascal_tree.specs.SeenStatement.{seen_labels};
ghost use Rattle.pascal_code.specs.Statements.{label_test, more_label_tests, label_tests, label_tests_size};
ghost use Rattle.pascal_compile.specs.SeenSite.{seen_site};

use crate::drafts::Drafts;
use crate::instructions::{bare, load_word, push};
use crate::site::Site;
use pascal_tree::constant::{Constant, Labels};
use solo_base::NoMemory;
use stack_code::Op;

/// Compares the selector's word with the labels.
pub fn label_tests(
    code: &mut Drafts,
    site: &Site<'_, '_>,
    selector: u16,
    labels: &Labels,
) -> Result<(), NoMemory>
    ensures { OnOk result (code.new ≡ code.old ++ label_tests (seen_site site.now) selector
        (length code.old + label_tests_size (seen_labels labels.now) + 1) (seen_labels labels.now)) }
{
    let Some(found) = place_behind(code.place(), labels) else {
        return Err(NoMemory);
    };
    label_test(code, site, selector, found, &labels.first)?;
    more_label_tests(code, site, selector, found, &labels.rest)
}

/// The place behind the tests and the jump over the statement, where tests begin at a place.
///
/// There is none where a place can't be so great: memory doesn't hold so many instructions.
fn place_behind(place: usize, labels: &Labels) -> Option<usize>
    ensures place { IfSome result (λ behind. behind ≡ place + label_tests_size (seen_labels labels.now) + 1) }
    ensures none { IfNone result (2 ^ 64 ≤ place + label_tests_size (seen_labels labels.now) + 1) }
{
    let tests = labels.rest.len().checked_add(1)?.checked_mul(4)?;
    place.checked_add(tests)?.checked_add(1)
}

fn more_label_tests(
    code: &mut Drafts,
    site: &Site<'_, '_>,
    selector: u16,
    found: usize,
    labels: &[(u32, Constant)],
) -> Result<(), NoMemory>
    ensures { OnOk result (code.new
        ≡ code.old ++ more_label_tests (seen_site site.now) selector found labels.now) }
{
    for (_, label) in labels {
        label_test(code, site, selector, found, label)?;
    }
    Ok(())
}

fn label_test(
    code: &mut Drafts,
    site: &Site<'_, '_>,
    selector: u16,
    found: usize,
    label: &Constant,
) -> Result<(), NoMemory>
    ensures { OnOk result (code.new
        ≡ code.old ++ label_test (seen_site site.now) selector found label.now) }
{
    code.emit(load_word(site.owner(), selector))?;
    code.emit(push(site.number(label)))?;
    code.emit(bare(Op::Ne))?;
    code.jump_if_false(found)
}
