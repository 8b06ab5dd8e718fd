// Which action a method and a target name.
ghost use Rattle.std.specs.Prelude.{◌≡◌};
ghost use Rattle.desk_http.specs.Routes.{before, behind, between, change_route, delete_route, file_route, get_route, module_route, plain, plain_route, post_route, put_route, route};

// What is done at a target.
#[derive(Clone, Copy, PartialEq, Eq, Debug)]
pub(crate) enum Action {
    PutFile,
    GetFile,
    FileText,
    Files,
    DropFile,
    Ruling,
    Reach,
    SignOff,
    SignOffs,
    Waive,
    Waivers,
    Revoke,
}

// An action, and the part of the target that names what it is done to.
pub(crate) type Route<'a> = (Action, &'a [u8]);

// What is behind the front of a text, where it has this front.
pub(crate) fn behind<'a>(front: &[u8], text: &'a [u8]) -> Option<&'a [u8]>
    ensures { plain result ≡ behind front.now text.now }
{
    text.strip_prefix(front)
}

// What is before the end of a text, where it has this end.
fn before<'a>(end: &[u8], text: &'a [u8]) -> Option<&'a [u8]>
    ensures { plain result ≡ before end.now text.now }
{
    text.strip_suffix(end)
}

// What is between the front and the end of a text.
fn between<'a>(front: &[u8], end: &[u8], text: &'a [u8]) -> Option<&'a [u8]>
    ensures { plain result ≡ between front.now end.now text.now }
{
    match behind(front, text) {
        Some(rest) => before(end, rest),
        None => None,
    }
}

// What is told of a file.
fn file_route(target: &[u8]) -> Option<Route<'_>>
    ensures { plain_route result ≡ file_route target.now }
{
    match between(b"/files/", b"/text", target) {
        Some(name) => Some((Action::FileText, name)),
        None => match behind(b"/files/", target) {
            Some(name) => Some((Action::GetFile, name)),
            None => None,
        },
    }
}

// What is told of a module.
fn module_route(target: &[u8]) -> Option<Route<'_>>
    ensures { plain_route result ≡ module_route target.now }
{
    match between(b"/modules/", b"/ruling", target) {
        Some(top) => Some((Action::Ruling, top)),
        None => match between(b"/modules/", b"/reach", target) {
            Some(top) => Some((Action::Reach, top)),
            None => None,
        },
    }
}

fn get_route(target: &[u8]) -> Option<Route<'_>>
    ensures { plain_route result ≡ get_route target.now }
{
    if target == b"/files".as_slice() {
        return Some((Action::Files, b""));
    }
    if target == b"/signoffs".as_slice() {
        return Some((Action::SignOffs, b""));
    }
    if target == b"/waivers".as_slice() {
        return Some((Action::Waivers, b""));
    }
    match file_route(target) {
        Some(found) => Some(found),
        None => module_route(target),
    }
}

fn put_route(target: &[u8]) -> Option<Route<'_>>
    ensures { plain_route result ≡ put_route target.now }
{
    match behind(b"/files/", target) {
        Some(name) => Some((Action::PutFile, name)),
        None => None,
    }
}

fn post_route(target: &[u8]) -> Option<Route<'_>>
    ensures { plain_route result ≡ post_route target.now }
{
    if target == b"/waivers".as_slice() {
        return Some((Action::Waive, b""));
    }
    match between(b"/modules/", b"/signoffs", target) {
        Some(top) => Some((Action::SignOff, top)),
        None => None,
    }
}

fn delete_route(target: &[u8]) -> Option<Route<'_>>
    ensures { plain_route result ≡ delete_route target.now }
{
    match behind(b"/files/", target) {
        Some(name) => Some((Action::DropFile, name)),
        None => match behind(b"/waivers/", target) {
            Some(id) => Some((Action::Revoke, id)),
            None => None,
        },
    }
}

fn change_route<'a>(method: &[u8], target: &'a [u8]) -> Option<Route<'a>>
    ensures { plain_route result ≡ change_route method.now target.now }
{
    if method == b"PUT".as_slice() {
        put_route(target)
    } else if method == b"POST".as_slice() {
        post_route(target)
    } else if method == b"DELETE".as_slice() {
        delete_route(target)
    } else {
        None
    }
}

// The route of a method and a target. The part isn't decoded yet: an escaped slash is none.
pub(crate) fn route<'a>(method: &[u8], target: &'a [u8]) -> Option<Route<'a>>
    ensures { plain_route result ≡ route method.now target.now }
{
    if method == b"GET".as_slice() {
        get_route(target)
    } else {
        change_route(method, target)
    }
}
