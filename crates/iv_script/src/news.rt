//! Which violations of deferred constraints came and went.
ghost use Rattle.std.specs.Prelude.{◌≡◌, ◌&&◌, [], true, false, is_some, IfOk};
ghost use Rattle.iv_step.specs.Pending.{FaultsRise};
ghost use Rattle.iv_script.specs.News.{AreNews, AreNewsSince, news_seen};
ghost use Rattle.iv_script.specs.Transcript.{news_since, no_news};

use crate::merging::without;
use iv_account::Account;
use iv_catalogue::Fault;
use iv_step::Executor;
use std::alloc::{AllocError, Global};

/// What is told of the violations that are pending: which came, with their rows, and which went. Those that are listed
/// are what the next difference is from. Memory for this may be refused.
#[derive(Drop)]
pub struct News {
    pub came: Account,
    pub went: Vec<Fault>,
    pub listed: Vec<Fault>,
    pub is_refused: bool,
}

// No news.
fn none(alloc: Global, listed: Vec<Fault>, is_refused: bool) -> News
    ensures news { news_seen result ≡ no_news listed.items }
    ensures refused { result.is_refused ≡ is_refused }
{
    News {
        came: Account::new(alloc, true),
        went: Vec::new(alloc),
        listed,
        is_refused,
    }
}

// What came and what went since these were listed.
fn compare<S: Executor>(alloc: Global, session: &S, listed: &[Fault]) -> Result<News, AllocError>
    requires { FaultsRise listed.now }
    ensures news { IfOk result (λ n. news_seen n ≡ news_since listed.now (S.state session.now)) }
    ensures refused { IfOk result (λ n. n.is_refused ≡ false) }
    ensures rise { IfOk result (λ n. FaultsRise n.listed.items) }
{
    let now = session.pending()?;
    let faults = without(alloc, now.as_slice(), listed)?;
    let came = session.violations(faults.as_slice())?;
    let went = without(alloc, listed, now.as_slice())?;
    Ok(News {
        came,
        went,
        listed: now,
        is_refused: false,
    })
}

// The same, or no news where memory for it is refused.
fn news_since<S: Executor>(alloc: Global, session: &S, listed: Vec<Fault>) -> News
    requires { FaultsRise listed.items }
    ensures news { AreNewsSince listed.items (S.state session.now) result }
    ensures rise { FaultsRise result.listed.items }
{
    match compare(alloc, session, listed.as_slice()) {
        Ok(news) => news,
        Err(_) => none(alloc, listed, true),
    }
}

/// The news after a statement, by the violations that were listed last. It takes time and memory in proportion to those
/// that were listed and those that are pending.
pub fn news_after<S: Executor>(
    alloc: Global,
    session: &S,
    is_asked: bool,
    was_refused: bool,
    listed: Vec<Fault>,
) -> News
    requires { FaultsRise listed.items }
    ensures news { AreNews (is_asked && is_some (S.state session.now).start) was_refused listed.items
        (S.state session.now) result }
    ensures rise { FaultsRise result.listed.items }
{
    if !(is_asked && session.in_transaction()) {
        return none(alloc, Vec::new(alloc), false);
    }
    if was_refused {
        return none(alloc, listed, false);
    }
    news_since(alloc, session, listed)
}
