//! Pages that are hosted within other limits than the defaults.
use crom_host::{Loaded, answer, load, serve_stream};
use http_wire::Asked;
use page_units::{Limit, Limits, SureSink, SureSource};
use std::alloc::{AllocError, Global};

/// The default limits, but for the bytes of a tree text and the requests of a run. None where those are more than the
/// defaults.
fn limits_of(dom_text: u64, served: u64) -> Option<Limits> {
    match Limits::default().with(Limit::DomText, dom_text) {
        Some(limits) => limits.with(Limit::Served, served),
        None => None,
    }
}

/// The status and the body of the reply to a request for the page's tree, of which at most so many bytes are served.
pub fn replied_within(alloc: Global, page: &str, dom_text: u64) -> Result<String, AllocError> {
    let limits = match limits_of(dom_text, 1) {
        Some(limits) => limits,
        None => return String::from_str(alloc, "no limits"),
    };
    let mut base = match load(alloc, page.as_bytes(), &limits) {
        Ok(Loaded::Ready(base)) => base,
        Ok(Loaded::HasScripts) => return String::from_str(alloc, "has scripts"),
        Err(fault) => return format!(in alloc; "{fault}"),
    };
    let reply = answer(alloc, &mut base, &limits, &Ok(Asked::Dom))?;
    let mut text = String::from_utf8_lossy(alloc, reply.body.as_slice())?.to_string(alloc)?;
    write!(text, "|{}", reply.status)?;
    Ok(text)
}

/// What the requests are answered on the page, within these limits, how many were answered, and how the stream ended.
pub fn served_within(
    alloc: Global,
    page: &str,
    input: &str,
    dom_text: u64,
    served: u64,
) -> Result<String, AllocError> {
    let limits = match limits_of(dom_text, served) {
        Some(limits) => limits,
        None => return String::from_str(alloc, "no limits"),
    };
    let mut base = match load(alloc, page.as_bytes(), &limits) {
        Ok(Loaded::Ready(base)) => base,
        Ok(Loaded::HasScripts) => return String::from_str(alloc, "has scripts"),
        Err(fault) => return format!(in alloc; "{fault}"),
    };
    let mut source = SureSource::new(Vec::from_slice(alloc, input.as_bytes())?);
    let mut sink = SureSink::new(Vec::new(alloc));
    let mut count = 0;
    let ended = serve_stream(
        alloc,
        &mut base,
        &limits,
        &mut count,
        &mut source,
        &mut sink,
    )?;
    let mut text = String::from_utf8_lossy(alloc, sink.bytes())?.to_string(alloc)?;
    write!(text, "|{count} {ended:?}")?;
    Ok(text)
}
