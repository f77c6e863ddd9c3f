//! The alphas so far, which can be looked up by class and tests.
ghost use Rattle.std.specs.Prelude.{◌≡◌, ◌↔◌, IfOk, IfSome, IfNone, IsTrue, map};
ghost use Rattle.beta_net.specs.Built.{IsAlpha, HasAlpha, IsNewAlpha, AreAlphas, AddsAlpha, code_of_alpha};

use crate::chains::Chains;
use crate::code::alpha_code;
use crate::same::same_items;
use net_base::nodes::Alpha;
use ops_base::conditions::Test;
use ops_base::list::Listed;
use ops_base::memory::OutOfMemory;

/// The alphas, chained by the codes of their classes and tests.
#[derive(Drop)]
pub(crate) struct Alphas {
    pub(crate) list: Vec<Alpha>,
    pub(crate) chains: Chains,
}

fn is_alpha_of(alpha: &Alpha, class: usize, tests: &[Test]) -> bool
    ensures { IsTrue result ↔ IsAlpha class tests.now alpha.now }
{
    alpha.class == class && same_items(alpha.tests.as_slice(), tests)
}

/// The alpha of this class and these tests. It compares those that have the same code.
fn find(alphas: &[Alpha], chains: &Chains, class: usize, tests: &[Test]) -> Option<usize>
    requires { chains.now ≡ map code_of_alpha alphas.now }
    ensures found { IfSome result (λ n. HasAlpha alphas.now class tests.now n) }
    ensures none { IfNone result (IsNewAlpha alphas.now class tests.now) }
{
    let code = alpha_code(class, tests);
    let mut at = chains.newest(code);
    while let Some(n) = at {
        let alpha = &alphas[n];
        if is_alpha_of(alpha, class, tests) {
            return Some(n);
        }
        at = chains.earlier(n);
    }
    None
}

/// Adds an alpha that is not there yet.
fn add(alphas: &mut Alphas, alpha: Alpha) -> Result<usize, OutOfMemory>
    requires alphas { AreAlphas alphas.old }
    requires fresh { IsNewAlpha alphas.old.list.items alpha.class alpha.tests }
    ensures { IfOk result (λ n. AddsAlpha alphas.old alphas.new alpha.class alpha.tests n) }
{
    let n = alphas.list.as_slice().len();
    alphas
        .chains
        .add(alpha_code(alpha.class, alpha.tests.as_slice()))?;
    alphas.list.push(alpha)?;
    Ok(n)
}

/// The number of the alpha of this class and these tests, new or old.
pub(crate) fn number_of(
    alphas: &mut Alphas,
    class: usize,
    tests: Listed<Test>,
) -> Result<usize, OutOfMemory>
    requires { AreAlphas alphas.old }
    ensures { IfOk result (λ n. AddsAlpha alphas.old alphas.new class tests n) }
{
    match find(
        alphas.list.as_slice(),
        &alphas.chains,
        class,
        tests.as_slice(),
    ) {
        Some(n) => Ok(n),
        None => add(alphas, Alpha { class, tests }),
    }
}
