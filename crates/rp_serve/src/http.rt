//! Clients that speak another language.
ghost use Rattle.std.specs.Prelude.{◌≡◌};
ghost use Rattle.rp_serve.specs.Http.{begins_http};

/// Whether the bytes begin a request of HTTP, as a browser sends one for any page that asks it to. No line of a request begins so.
pub fn begins_http(bytes: &[u8]) -> bool
    ensures { result ≡ begins_http bytes.now }
{
    bytes.starts_with(b"GET ")
        || bytes.starts_with(b"HEAD ")
        || bytes.starts_with(b"POST ")
        || bytes.starts_with(b"PUT ")
        || bytes.starts_with(b"DELETE ")
        || bytes.starts_with(b"CONNECT ")
        || bytes.starts_with(b"OPTIONS ")
        || bytes.starts_with(b"TRACE ")
        || bytes.starts_with(b"PATCH ")
        || bytes.starts_with(b"PRI ")
}
