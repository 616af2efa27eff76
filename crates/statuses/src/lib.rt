//! The status of the reply to a delivery. It stands apart from the desk, so that a wrong body of it is tried in seconds.
#![tactic(auto)]

ghost use Rattle.std.specs.Prelude.{◌≡◌, if◌then◌else◌};

use http::StatusCode;

/// The status of the reply to a delivery that the archive took: 201 (RFC 9110, 15.3.2) if it is new, else 200.
pub fn delivery_status(is_new: bool) -> StatusCode
    ensures { result ≡ (if is_new then 201 else 200) }
{
    if is_new {
        StatusCode::CREATED
    } else {
        StatusCode::OK
    }
}
