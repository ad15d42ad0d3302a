//! Where lines may break.

ghost use Rattle.std.specs.Prelude.{
  ◌≡◌,
  IfSome,
  ◌∷◌,
  ◌++◌,
  None,
  Some,
  not,
  ◌&&◌,
  ◌||◌,
  true,
  false,
};
ghost use Rattle.lay_space.specs.declared.breaks.Entry.{Entry};
ghost use Rattle.lay_space.specs.declared.breaks.Entry.TheVariants.{Content, Break};
ghost use Rattle.lay_space.specs.Breaks.{
  is_solid_token,
  is_preserved_space,
  space_follows,
  break_after_cluster,
  break_after,
  leads_to_atomic,
  passes_by,
  breaks_before,
  broken,
  front_break,
  back_break,
  solid_after,
  is_start,
};

use crate::tokens::{ClusterKind, Token};

/// A token, or a place where a line may break, or has to where `forced`.
#[derive(Clone, Copy)]
pub enum Entry {
    Content(Token),
    Break(bool),
}

/// What is known between two tokens: whether content stands here since the last break, and, after the
/// start of an inline box, whether an atomic follows. So a row of starts is looked through once.
#[derive(Clone, Copy)]
pub struct Seen {
    pub solid: bool,
    pub atomic: Option<bool>,
}

/// The breaks before and after a token, and what is known after it.
#[derive(Clone, Copy)]
pub struct Around {
    pub before: bool,
    pub after: Option<bool>,
    pub seen: Seen,
}

/// The breaks around a token.
pub fn breaks_around(token: Token, next: &[Token], seen: Seen) -> Around
    requires { IfSome seen.atomic (λ b. leads_to_atomic (token ∷ next.now) ≡ b) }
    ensures broken { broken seen.solid (token ∷ next.now) ≡ front_break result.before ++ Content token
        ∷ back_break result.after ++ broken result.seen.solid next.now }
    ensures atomic { IfSome result.seen.atomic (λ b. leads_to_atomic next.now ≡ b) }
{
    let atomic = atomic_after(token, next, seen.atomic);
    let before = breaks_before(token, next, atomic);
    let after = break_after(token, next);
    let solid = solid_after(after, solid_now(token, before, seen.solid));
    Around {
        before: seen.solid && before,
        after,
        seen: Seen { solid, atomic },
    }
}

/// Whether an atomic follows, where that has been looked up or is looked up here.
fn atomic_after(token: Token, next: &[Token], known: Option<bool>) -> Option<bool>
    requires { IfSome known (λ b. leads_to_atomic (token ∷ next.now) ≡ b) }
    ensures right { IfSome result (λ b. leads_to_atomic next.now ≡ b) }
    ensures start { is_start token ≡ true → result ≡ Some (leads_to_atomic next.now) }
{
    if !passes_by(token) {
        return None;
    }
    match known {
        Some(atomic) => Some(atomic),
        None => if is_start(token) {
            Some(leads_to_atomic(next))
        } else {
            None
        },
    }
}

fn leads_to_atomic(tokens: &[Token]) -> bool
    ensures { result ≡ leads_to_atomic tokens.now }
{
    for k in 0..tokens.len() {
        match tokens[k] {
            Token::Cluster(_) | Token::End(_) => return false,
            Token::Atomic(_, mode) => return mode.wraps(),
            _ => {}
        }
    }
    false
}

fn passes_by(token: Token) -> bool
    ensures { result ≡ passes_by token }
{
    match token {
        Token::Cluster(_) | Token::End(_) | Token::Atomic(_, _) => false,
        _ => true,
    }
}

fn breaks_before(token: Token, next: &[Token], atomic: Option<bool>) -> bool
    requires { is_start token ≡ true → atomic ≡ Some (leads_to_atomic next.now) }
    ensures { result ≡ breaks_before token next.now }
{
    let _ = next;
    match token {
        Token::Atomic(_, mode) => mode.wraps(),
        Token::Start(_, _) => match atomic {
            Some(atomic) => atomic,
            None => false,
        },
        _ => false,
    }
}

fn break_after(token: Token, next: &[Token]) -> Option<bool>
    ensures { result ≡ break_after token next.now }
{
    match token {
        Token::Cluster(cluster) => break_after_cluster(cluster.kind, cluster.mode.wraps(), next),
        Token::Atomic(_, mode) => if mode.wraps() { Some(false) } else { None },
        _ => None,
    }
}

fn break_after_cluster(kind: ClusterKind, wraps: bool, next: &[Token]) -> Option<bool>
    ensures { result ≡ break_after_cluster kind wraps next.now }
{
    match kind {
        ClusterKind::Linefeed => Some(true),
        ClusterKind::CollapsibleSpace | ClusterKind::ZeroWidthSpace => if wraps {
            Some(false)
        } else {
            None
        },
        ClusterKind::PreservedSpace => {
            let last = !space_follows(next);
            if wraps && last { Some(false) } else { None }
        }
        ClusterKind::Tab | ClusterKind::Other => None,
    }
}

fn space_follows(tokens: &[Token]) -> bool
    ensures { result ≡ space_follows tokens.now }
{
    match tokens.first() {
        Some(token) => is_preserved_space(*token),
        None => false,
    }
}

fn is_preserved_space(token: Token) -> bool
    ensures { result ≡ is_preserved_space token }
{
    match token {
        Token::Cluster(cluster) => match cluster.kind {
            ClusterKind::PreservedSpace => true,
            _ => false,
        },
        _ => false,
    }
}

fn is_solid(token: Token) -> bool
    ensures { result ≡ is_solid_token token }
{
    match token {
        Token::Cluster(_) | Token::Atomic(_, _) => true,
        _ => false,
    }
}

fn solid_now(token: Token, before: bool, solid: bool) -> bool
    ensures { result ≡ (solid && not before) || is_solid_token token }
{
    let kept = solid && !before;
    let own = is_solid(token);
    kept || own
}

fn solid_after(here: Option<bool>, solid: bool) -> bool
    ensures { result ≡ solid_after here solid }
{
    match here {
        Some(_) => false,
        None => solid,
    }
}

pub fn is_start(token: Token) -> bool
    ensures { result ≡ is_start token }
{
    match token {
        Token::Start(_, _) => true,
        _ => false,
    }
}
