//! What a request asks for.
ghost use Rattle.std.specs.Prelude.{◌≡◌, IsTrue, IsSome, IfSome, IsSomeAnd, IfOk, IsErrOf, ◌↔◌, ℕ, List, nat_eq, codes};
ghost use Rattle.std.specs.List.{starts_with};
ghost use Rattle.http_wire.specs.Seen.{seen};
ghost use Rattle.http_model.specs.Head.{path_of};
ghost use Rattle.session_model.specs.Methods.{has_method as methods_have};
ghost use Rattle.session_model.specs.Routes.{is_target, route_of};
ghost use Rattle.session_model.specs.Asking.{asked as what_is_asked, by_name, by_route};
ghost use Rattle.session_model.specs.Parameters as model;
ghost use Rattle.matchit.specs.Params.{named, AllText};
ghost use Rattle.routes.specs.Taken.{taken, part_of, route_taken, Takes};
ghost use Rattle.routes.specs.Failed.{Reads};
ghost use Rattle.routes.specs.Memory.{HasEscape, TakesMemory};
ghost use Rattle.routes.specs.Asked.{Asks, HasCalls, call_seen};

use crate::arguments::{Arguments, keep};
use crate::changeset_list::{changesets_of, last_of, puts};
use crate::parameters::{
    caller_name, id_parameter, maybe_id_parameter, name_parameter, number_parameter, path_parameter,
};
use crate::route_refusal::RouteRefusal;
use crate::router::{Routes, part};
use http_wire::Request;
use matchit::Params;
use object_id::Id;
use repo_calls::{Ask, Question};
use repo_path::{BookName, RepoPath};
use session_model::{Method, Methods, RouteName};
use std::alloc::Global;
use std::str;

/// What a request asks the repository for. It borrows the request's body, and what its arguments stand in. The moment of a
/// landing is left open, as 0.
#[derive(Debug, Drop)]
pub enum Call<'a> {
    /// To make a change.
    Change(Ask<'a>),
    /// To answer a read.
    Read(Question<'a>),
    /// To make changes one after another, up to the first that isn't granted.
    List(Vec<Ask<'a>>),
}

fn begins_with_slash(path: &[u8]) -> bool
    ensures { result ≡ starts_with nat_eq path.now (codes "/") }
{
    path.starts_with(b"/")
}

// The target before any `?` as text, if it begins with a slash.
fn target(path: &[u8]) -> Option<&str>
    ensures some { IfSome result (λ text. text.now ≡ path.now) }
    ensures target { IsSome result ↔ IsTrue (is_target path.now) }
{
    match str::from_utf8(path) {
        Ok(text) if begins_with_slash(path) => Some(text),
        _ => None,
    }
}

fn has_method(request: &Request, methods: Methods) -> bool
    ensures { result ≡ methods_have methods (seen request.now).method }
{
    methods.has(request.method.as_str())
}

// The id in a path.
fn id_from(alloc: Global, params: &Params<'_, '_>) -> Result<Id, RouteRefusal>
    requires text { AllText (taken params.now) }
    requires there { IsSome (named (codes "id") (taken params.now)) }
    ensures id { Reads (λ id. id) result (model.id_parameter (part_of (taken params.now) (codes "id"))) }
    ensures memory { IsErrOf result RouteRefusal.Memory → HasEscape (part_of (taken params.now) (codes "id")) }
{
    id_parameter(alloc, part(params, "id"))
}

// A number in a path.
fn number_from(alloc: Global, params: &Params<'_, '_>, part_name: &str) -> Result<u64, RouteRefusal>
    requires text { AllText (taken params.now) }
    requires there { IsSome (named part_name.now (taken params.now)) }
    ensures number { Reads (λ n. n) result (model.number_parameter (part_of (taken params.now) part_name.now)) }
    ensures memory { IsErrOf result RouteRefusal.Memory → HasEscape (part_of (taken params.now) part_name.now) }
{
    number_parameter(alloc, part(params, part_name))
}

// The bookmark's name in a path.
fn name_from<'a>(
    alloc: Global,
    params: &Params<'_, '_>,
    slot: &'a mut Option<BookName>,
) -> Result<&'a BookName, RouteRefusal>
    requires text { AllText (taken params.now) }
    requires there { IsSome (named (codes "name") (taken params.now)) }
    ensures { Reads (λ name. name.now) result (model.name_parameter (part_of (taken params.now) (codes "name"))) }
{
    Ok(keep(slot, name_parameter(alloc, part(params, "name"))?))
}

// What takes the rest of a path.
fn path_from<'a>(
    alloc: Global,
    params: &Params<'_, '_>,
    slot: &'a mut Option<RepoPath>,
) -> Result<&'a RepoPath, RouteRefusal>
    requires text { AllText (taken params.now) }
    requires there { IsSome (named (codes "path") (taken params.now)) }
    ensures { Reads (λ path. path.now) result (model.path_parameter (part_of (taken params.now) (codes "path"))) }
{
    Ok(keep(slot, path_parameter(alloc, part(params, "path"))?))
}

// Who asks, by the request's headers.
fn caller_from<'a>(
    alloc: Global,
    request: &Request,
    slot: &'a mut Option<BookName>,
) -> Result<&'a BookName, RouteRefusal>
    ensures { Reads (λ name. name.now) result (model.caller_named (seen request.now).caller) }
{
    Ok(keep(slot, caller_name(alloc, &request.caller)?))
}

// The move of a bookmark.
fn move_from<'a>(
    alloc: Global,
    params: &Params<'_, '_>,
    request: &'a Request,
    arguments: &'a mut Arguments,
) -> Result<Call<'a>, RouteRefusal>
    requires { Takes RouteName.Move params.now }
    ensures call { Reads call_seen result (by_route (route_taken RouteName.Move (taken params.now)) (seen request.now)) }
    ensures some { IfOk result HasCalls }
{
    let name = name_from(alloc, params, &mut arguments.name)?;
    let from = maybe_id_parameter(alloc, part(params, "from"))?;
    let to = maybe_id_parameter(alloc, part(params, "to"))?;
    let caller = caller_from(alloc, request, &mut arguments.caller)?;
    Ok(Call::Change(Ask::SetBookmark {
        caller,
        name,
        from,
        to,
    }))
}

// A landing.
fn landing_from<'a>(
    alloc: Global,
    params: &Params<'_, '_>,
    request: &'a Request,
    arguments: &'a mut Arguments,
) -> Result<Call<'a>, RouteRefusal>
    requires { Takes RouteName.Land params.now }
    ensures call { Reads call_seen result (by_route (route_taken RouteName.Land (taken params.now)) (seen request.now)) }
    ensures some { IfOk result HasCalls }
{
    let name = name_from(alloc, params, &mut arguments.name)?;
    let draft = id_from(alloc, params)?;
    let caller = caller_from(alloc, request, &mut arguments.caller)?;
    Ok(Call::Change(Ask::Land {
        caller,
        name,
        draft,
        // a request tells none
        moment: 0,
    }))
}

// Changesets that are stored one after another.
fn list_from<'a>(alloc: Global, request: &'a Request) -> Result<Call<'a>, RouteRefusal>
    ensures call { (value : ℕ → List ℕ) → Reads call_seen result (by_name RouteName.ChangesetList value (seen request.now)) }
    ensures some { IfOk result HasCalls }
{
    let changesets = changesets_of(alloc, request.body.as_slice())?;
    Ok(Call::List(puts(alloc, &changesets)?))
}

// Changesets that are stored one after another, and then landed as one stack.
fn stack_from<'a>(
    alloc: Global,
    params: &Params<'_, '_>,
    request: &'a Request,
    arguments: &'a mut Arguments,
) -> Result<Call<'a>, RouteRefusal>
    requires { Takes RouteName.Stack params.now }
    ensures call { Reads call_seen result (by_route (route_taken RouteName.Stack (taken params.now)) (seen request.now)) }
    ensures some { IfOk result HasCalls }
{
    let name = name_from(alloc, params, &mut arguments.name)?;
    let caller = caller_from(alloc, request, &mut arguments.caller)?;
    let changesets = changesets_of(alloc, request.body.as_slice())?;
    let mut asks = puts(alloc, &changesets)?;
    asks.push_reserved(Ask::Land {
        caller,
        name,
        draft: Id::of(last_of(&changesets)),
        // a request tells none
        moment: 0,
    });
    Ok(Call::List(asks))
}

// The policy that is held, or a new one.
fn policy_from<'a>(
    alloc: Global,
    request: &'a Request,
    arguments: &'a mut Arguments,
) -> Result<Call<'a>, RouteRefusal>
    ensures call { (value : ℕ → List ℕ) → Reads call_seen result (by_name RouteName.Policy value (seen request.now)) }
    ensures some { IfOk result HasCalls }
{
    if request.method.as_str() != Method::Put.text() {
        return Ok(Call::Read(Question::Policy(None)));
    }
    Ok(Call::Change(Ask::SetPolicy {
        caller: caller_from(alloc, request, &mut arguments.caller)?,
        text: request.body.as_slice(),
    }))
}

// What a route asks for, which was asked by one of its methods.
fn call_from<'a>(
    alloc: Global,
    name: RouteName,
    params: &Params<'_, '_>,
    request: &'a Request,
    arguments: &'a mut Arguments,
) -> Result<Call<'a>, RouteRefusal>
    requires { Takes name params.now }
    ensures call { Reads call_seen result (by_route (route_taken name (taken params.now)) (seen request.now)) }
    ensures some { IfOk result HasCalls }
    ensures memory { IsErrOf result RouteRefusal.Memory → TakesMemory (route_taken name (taken params.now)) }
{
    let body = request.body.as_slice();
    Ok(match name {
        RouteName::Contents => Call::Change(Ask::PutContent(body)),
        RouteName::Content => Call::Read(Question::Content(id_from(alloc, params)?)),
        RouteName::Wholes => Call::Change(Ask::PutWhole(body)),
        RouteName::Changesets => Call::Change(Ask::PutChangeset(body)),
        RouteName::Changeset => Call::Read(Question::Changeset(id_from(alloc, params)?)),
        RouteName::ChangesetList => return list_from(alloc, request),
        RouteName::Head => Call::Read(Question::Head(name_from(
            alloc,
            params,
            &mut arguments.name,
        )?)),
        RouteName::Move => return move_from(alloc, params, request, arguments),
        RouteName::Land => return landing_from(alloc, params, request, arguments),
        RouteName::Stack => return stack_from(alloc, params, request, arguments),
        RouteName::Policy => return policy_from(alloc, request, arguments),
        RouteName::NumberedPolicy => {
            Call::Read(Question::Policy(Some(number_from(alloc, params, "number")?)))
        }
        RouteName::Log => Call::Read(Question::Log(number_from(alloc, params, "from")?)),
        RouteName::RootFsnode => Call::Read(Question::Fsnode(id_from(alloc, params)?, None)),
        RouteName::Fsnode => Call::Read(Question::Fsnode(
            id_from(alloc, params)?,
            Some(path_from(alloc, params, &mut arguments.path)?),
        )),
        RouteName::RootUnode => Call::Read(Question::Unode(id_from(alloc, params)?, None)),
        RouteName::Unode => Call::Read(Question::Unode(
            id_from(alloc, params)?,
            Some(path_from(alloc, params, &mut arguments.path)?),
        )),
        RouteName::RootDeleted => Call::Read(Question::Deleted(id_from(alloc, params)?, None)),
        RouteName::Deleted => Call::Read(Question::Deleted(
            id_from(alloc, params)?,
            Some(path_from(alloc, params, &mut arguments.path)?),
        )),
        RouteName::History => Call::Read(Question::History(
            id_from(alloc, params)?,
            path_from(alloc, params, &mut arguments.path)?,
        )),
        RouteName::PathLog => Call::Read(Question::PathLog(
            id_from(alloc, params)?,
            path_from(alloc, params, &mut arguments.path)?,
        )),
        RouteName::Copies => Call::Read(Question::Copies(id_from(alloc, params)?)),
    })
}

impl Routes {
    /// What the request asks for. Its path has to be a route's before escapes are decoded (RFC 3986), and its method
    /// the route's; the parameters are judged from left to right, and those that the call borrows are put into `arguments`.
    pub fn call_of<'a>(
        &self,
        alloc: Global,
        request: &'a Request,
        arguments: &'a mut Arguments,
    ) -> Result<Call<'a>, RouteRefusal>
        ensures asks { Asks result (what_is_asked (seen request.now)) }
        ensures some { IfOk result HasCalls }
        ensures memory { IsErrOf result RouteRefusal.Memory → IsSomeAnd (route_of (path_of (seen request.now).target)) TakesMemory }
    {
        let Some(path) = target(request.path()) else {
            return Err(RouteRefusal::BadTarget);
        };
        let Some(found) = self.find(path) else {
            return Err(RouteRefusal::NoRoute);
        };
        let name = *found.value;
        let methods = name.methods();
        if !has_method(request, methods) {
            return Err(RouteRefusal::Method(methods));
        }
        call_from(alloc, name, &found.params, request, arguments)
    }
}
