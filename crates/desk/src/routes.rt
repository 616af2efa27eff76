//! Which command a path asks for, and the desk that knows it.
//!
//! The routes are read once, into a `Desk`, which answers any number of connections. The function `answer` makes a desk of its own: if
//! there is no memory for it the reply is 507, and nothing was read.
ghost use Rattle.std.specs.Prelude.{◌≡◌, [], take, true, None, IfOk, IfErr, OnOk};
ghost use Rattle.desk.specs.Want.{add_routes, changes, method_of, no_rules, route_texts, routes};

use http::Method;
use matchit::{InsertError, Router};
use std::alloc::{AllocError, Global};
use std::cell::Cell;

/// The commands that have a route.
#[derive(Clone, Copy, Debug, PartialEq, Eq)]
pub enum Route {
    Deliver,
    Run,
    Copy,
    Waiting,
    Verdicts,
    Dists,
    Pool,
    Remove,
    Clean,
    Promote,
    /// The route of all questions.
    Question,
}

impl Route {
    /// The method that the route wants.
    pub fn method(self) -> Method
        ensures { result ≡ method_of self }
    {
        match self {
            Route::Deliver => Method::PUT,
            Route::Run | Route::Copy | Route::Remove | Route::Clean | Route::Promote =>
                Method::POST,
            Route::Waiting | Route::Verdicts | Route::Dists | Route::Pool | Route::Question => {
                Method::GET
            }
        }
    }
}

impl Route {
    /// Whether the route changes something: its method is not GET.
    pub fn changes(self) -> bool
        ensures { result ≡ changes self }
    {
        match self {
            Route::Deliver
            | Route::Run
            | Route::Copy
            | Route::Remove
            | Route::Clean
            | Route::Promote => true,
            Route::Waiting | Route::Verdicts | Route::Dists | Route::Pool | Route::Question => {
                false
            }
        }
    }
}

/// Adds the first four routes to an empty router.
fn add_first(router: &mut Router<Route>) -> Result<(), InsertError>
    requires { router.old ≡ [] }
    ensures ok { OnOk result (router.new ≡ add_routes (take 4 route_texts) []) }
    ensures err { IfErr result (λ e. e ≡ InsertError.OutOfMemory) }
{
    router.insert("/incoming/{name}", Route::Deliver)?;
    router.insert("/queue/run", Route::Run)?;
    router.insert("/copy/{from}/{to}/{source}", Route::Copy)?;
    router.insert("/queue", Route::Waiting)?;
    Ok(())
}

/// Adds the other routes to a router with the first four.
fn add_others(router: &mut Router<Route>) -> Result<(), InsertError>
    requires { router.old ≡ add_routes (take 4 route_texts) [] }
    ensures ok { OnOk result (router.new ≡ routes) }
    ensures err { IfErr result (λ e. e ≡ InsertError.OutOfMemory) }
{
    router.insert("/verdicts", Route::Verdicts)?;
    router.insert("/dists/{*path}", Route::Dists)?;
    router.insert("/pool/{*path}", Route::Pool)?;
    router.insert("/remove/{suite}/{package}", Route::Remove)?;
    router.insert("/queue/clean", Route::Clean)?;
    router.insert("/promote/{from}/{to}", Route::Promote)?;
    Ok(())
}

/// A router of all routes.
fn router(alloc: Global) -> Result<Router<Route>, InsertError>
    ensures ok { IfOk result (λ router. router ≡ routes) }
    ensures err { IfErr result (λ e. e ≡ InsertError.OutOfMemory) }
{
    let mut router = Router::new(alloc);
    add_first(&mut router)?;
    add_others(&mut router)?;
    Ok(router)
}

/// What a desk goes by, beside its routes.
#[derive(Debug, Drop)]
pub struct Rules {
    /// Whether a request that changes something is refused if it has a field Origin.
    pub refuses_origin: bool,
    /// The file of the key by which the Releases are signed, if they are: the pages name it.
    pub key: Option<String>,
}

/// The desk that answers requests. Its router of all routes is made once and serves any number of connections. It remembers whether the
/// archive was handed a call that may change what suites show.
#[derive(Drop)]
pub struct Desk {
    router: Router<Route>,
    has_change: Cell<bool>,
    pub rules: Rules,
    ghost all: { router ≡ routes },
}

impl Desk {
    /// A desk with all routes, which looks at no field Origin and names no key.
    pub fn new(alloc: Global) -> Result<Desk, AllocError>
        ensures { IfOk result (λ desk. desk.rules ≡ no_rules) }
    {
        Desk::with_rules(
            alloc,
            Rules {
                refuses_origin: false,
                key: None,
            },
        )
    }

    /// A desk with all routes, which refuses each request that changes something and has a field Origin. A browser adds that field to what a
    /// page asks for, and other clients don't send it.
    pub fn refusing_origin(alloc: Global) -> Result<Desk, AllocError>
        ensures { IfOk result (λ desk. desk.rules ≡ record { refuses_origin = true; key = None }) }
    {
        Desk::with_rules(
            alloc,
            Rules {
                refuses_origin: true,
                key: None,
            },
        )
    }

    /// A desk with all routes, which goes by these rules.
    pub fn with_rules(alloc: Global, rules: Rules) -> Result<Desk, AllocError>
        ensures { IfOk result (λ desk. desk.rules ≡ rules) }
    {
        match router(alloc) {
            Ok(router) => Ok(Desk {
                router,
                has_change: Cell::new(false),
                rules,
            }),
            Err(_) => Err(AllocError),
        }
    }

    /// The router of all routes.
    pub fn router(&self) -> &Router<Route>
        ensures { result.now ≡ routes }
    {
        &self.router
    }

    /// Remembers that the archive is handed a call that may change what suites show.
    pub fn note_change(&self) {
        self.has_change.set(true);
    }

    /// Whether the archive was handed a call that may change what suites show, since this was asked last.
    pub fn takes_change(&self) -> bool {
        self.has_change.replace(false)
    }
}
