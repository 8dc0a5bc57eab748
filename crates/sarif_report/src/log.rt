// The log as JSON. The names of its members are those of SARIF 2.1.0.

ghost use Rattle.std.specs.Prelude.{◌≡◌, IfOk, codes, map, option_map, string_bytes};
ghost use Rattle.serde_json.specs.Data.{string};
ghost use Rattle.serde_json.specs.View.{view};
ghost use Rattle.sarif_report.specs.Log.{IsLog, all_earlier, artifact_data, artifact_from, base_of, driver_data, earlier_data, earlier_text, fingerprints_data, help_text, invocation_data, log_data, notices_data, only, place_data, result_data, result_members, results_data, root_data, rule_data, rules_data, run_data, run_members, worded};

use crate::finding::{Earlier, Finding, Location, LoggedRun, ResultRule};
use crate::uri::uri_of;
use serde_json::{Value, json};
use std::alloc::{AllocError, Global};

const SCHEMA: &str =
    "https://docs.oasis-open.org/sarif/sarif/v2.1.0/os/schemas/sarif-schema-2.1.0.json";

const UNKNOWN_ROOT: &str = "the folder in which the program ran";

/// The text of a log with this one run. The log has the result, if there is one, with the records before it, the earliest first. It has a
/// notice of what kept the records from being judged, if that is not a result. It ends with a line feed.
///
/// # Errors
///
/// `AllocError` if memory is refused.
pub fn log_text(
    alloc: Global,
    of: &LoggedRun<'_>,
    finding: Option<&Finding<'_>>,
    earlier: &[Earlier<'_>],
    notice: Option<&str>,
) -> Result<String, AllocError>
    ensures { IfOk result (λ text. IsLog (string_bytes text) (log_data of.now finding.entry earlier.now notice.entry)) }
{
    let log = log_of(alloc, of, finding, earlier, notice)?;
    let mut text = log.to_string_pretty(alloc)?;
    text.push_str("\n")?;
    Ok(text)
}

fn log_of(
    alloc: Global,
    of: &LoggedRun<'_>,
    finding: Option<&Finding<'_>>,
    earlier: &[Earlier<'_>],
    notice: Option<&str>,
) -> Result<Value, AllocError>
    ensures { IfOk result (λ log. view log ≡ log_data of.now finding.entry earlier.now notice.entry) }
{
    let driver = driver_of(alloc, of.version, rules_of(alloc, finding)?)?;
    let results = results_of(alloc, finding, earlier)?;
    let invocation = invocation_of(alloc, of.status, notice)?;
    let run = run_of(alloc, of, invocation, results, driver)?;
    json!(in alloc; {"$schema": SCHEMA, "version": "2.1.0", "runs": [run]})
}

fn run_of(
    alloc: Global,
    of: &LoggedRun<'_>,
    invocation: Value,
    results: Vec<Value>,
    driver: Value,
) -> Result<Value, AllocError>
    ensures { IfOk result (λ run. view run ≡ run_data of.now (view invocation) (map view results.items) (view driver)) }
{
    let root = root_of(alloc, of.root)?;
    let folders = folders_of(alloc, root)?;
    let tool = tool_of(alloc, driver)?;
    let details = details_of(alloc, of.id)?;
    run_with(alloc, tool, details, folders, invocation, results)
}

// A run by its parts.
fn run_with(
    alloc: Global,
    tool: Value,
    details: Value,
    folders: Value,
    invocation: Value,
    results: Vec<Value>,
) -> Result<Value, AllocError>
    ensures { IfOk result (λ run. view run ≡ run_members (view details) (view invocation) (view folders) (map view results.items) (view tool)) }
{
    json!(in alloc; {
        "tool": tool,
        "automationDetails": details,
        "originalUriBaseIds": folders,
        "invocations": [invocation],
        "results": results
    })
}

// The program as the tool of a run.
fn tool_of(alloc: Global, driver: Value) -> Result<Value, AllocError>
    ensures { IfOk result (λ tool. view tool ≡ only (codes "driver") (view driver)) }
{
    json!(in alloc; {"driver": driver})
}

// What distinguishes the results of a run.
fn details_of(alloc: Global, id: &str) -> Result<Value, AllocError>
    ensures { IfOk result (λ details. view details ≡ only (codes "id") (string id.now)) }
{
    json!(in alloc; {"id": id})
}

// The folders from which files are named, of which there is one.
fn folders_of(alloc: Global, root: Value) -> Result<Value, AllocError>
    ensures { IfOk result (λ found. view found ≡ only (codes "SRCROOT") (view root)) }
{
    json!(in alloc; {"SRCROOT": root})
}

// The folder from which files are named: its reference if it is known, or what it is.
fn root_of(alloc: Global, root: Option<&str>) -> Result<Value, AllocError>
    ensures { IfOk result (λ found. view found ≡ root_data root.entry) }
{
    match root {
        Some(root) => {
            let uri = uri_of(alloc, root)?;
            json!(in alloc; {"uri": uri})
        }
        None => json!(in alloc; {"description": {"text": UNKNOWN_ROOT}}),
    }
}

fn driver_of(alloc: Global, version: &str, rules: Vec<Value>) -> Result<Value, AllocError>
    ensures { IfOk result (λ driver. view driver ≡ driver_data version.now (map view rules.items)) }
{
    json!(in alloc; {"name": "apexcheck", "version": version, "rules": rules})
}

// The rule of the result, if there is one.
fn rules_of(alloc: Global, finding: Option<&Finding<'_>>) -> Result<Vec<Value>, AllocError>
    ensures { IfOk result (λ rules. map view rules.items ≡ rules_data finding.entry) }
{
    let mut rules = Vec::new(alloc);
    if let Some(finding) = finding {
        rules.push(rule_of(alloc, &finding.rule)?)?;
    }
    Ok(rules)
}

// The result, if there is one.
fn results_of(
    alloc: Global,
    finding: Option<&Finding<'_>>,
    earlier: &[Earlier<'_>],
) -> Result<Vec<Value>, AllocError>
    ensures { IfOk result (λ results. map view results.items ≡ results_data finding.entry earlier.now) }
{
    let mut results = Vec::new(alloc);
    if let Some(finding) = finding {
        results.push(result_of(alloc, finding, earlier)?)?;
    }
    Ok(results)
}

// How the program ended. It succeeded if it judged the records: with a Yes or a No.
fn invocation_of(alloc: Global, status: u8, notice: Option<&str>) -> Result<Value, AllocError>
    ensures { IfOk result (λ invocation. view invocation ≡ invocation_data status notice.entry) }
{
    let notices = notices_of(alloc, notice)?;
    json!(in alloc; {
        "executionSuccessful": status <= 1,
        "exitCode": status,
        "toolExecutionNotifications": notices
    })
}

// What kept the records from being judged, if that is no result.
fn notices_of(alloc: Global, notice: Option<&str>) -> Result<Vec<Value>, AllocError>
    ensures { IfOk result (λ notices. map view notices.items ≡ notices_data notice.entry) }
{
    let mut notices = Vec::new(alloc);
    if let Some(text) = notice {
        let notice = json!(in alloc; {"level": "error", "message": {"text": text}})?;
        notices.push(notice)?;
    }
    Ok(notices)
}

// The rule of a result.
fn rule_of(alloc: Global, rule: &ResultRule<'_>) -> Result<Value, AllocError>
    ensures { IfOk result (λ found. view found ≡ rule_data rule.now) }
{
    let help = help_of(alloc, rule)?;
    json!(in alloc; {
        "id": rule.id,
        "shortDescription": {"text": rule.help},
        "fullDescription": {"text": help.as_str()},
        "help": {"text": help},
        "properties": {"section": rule.section}
    })
}

fn help_of(alloc: Global, rule: &ResultRule<'_>) -> Result<String, AllocError>
    ensures { IfOk result (λ help. string_bytes help ≡ help_text rule.now) }
{
    format!(in alloc; "{} See {}.", rule.help, rule.section)
}

// The result. Its rule is the only one.
fn result_of(
    alloc: Global,
    finding: &Finding<'_>,
    earlier: &[Earlier<'_>],
) -> Result<Value, AllocError>
    ensures { IfOk result (λ found. view found ≡ result_data finding.now earlier.now) }
{
    let place = place_of(alloc, &finding.location)?;
    let found = found_at(alloc, place)?;
    let related = related_of(alloc, earlier)?;
    let message = worded(alloc, finding.message)?;
    let fingerprints = fingerprints_of(alloc, finding.fingerprint)?;
    result_with(
        alloc,
        finding.rule.id,
        found,
        message,
        fingerprints,
        related,
    )
}

// A result by its parts.
fn result_with(
    alloc: Global,
    rule: &str,
    found: Value,
    message: Value,
    fingerprints: Value,
    related: Vec<Value>,
) -> Result<Value, AllocError>
    ensures { IfOk result (λ value. view value ≡ result_members (view found) (view message) (view fingerprints) (map view related.items) rule.now) }
{
    json!(in alloc; {
        "ruleId": rule,
        "ruleIndex": 0u64,
        "kind": "fail",
        "level": "error",
        "message": message,
        "locations": [found],
        "relatedLocations": related,
        "partialFingerprints": fingerprints
    })
}

// The place of a result.
fn found_at(alloc: Global, place: Value) -> Result<Value, AllocError>
    ensures { IfOk result (λ found. view found ≡ only (codes "physicalLocation") (view place)) }
{
    json!(in alloc; {"physicalLocation": place})
}

// A text as an object.
fn worded(alloc: Global, text: &str) -> Result<Value, AllocError>
    ensures { IfOk result (λ value. view value ≡ worded text.now) }
{
    json!(in alloc; {"text": text})
}

// What stays the same of a result, under two names.
fn fingerprints_of(alloc: Global, fingerprint: &str) -> Result<Value, AllocError>
    ensures { IfOk result (λ value. view value ≡ fingerprints_data fingerprint.now) }
{
    json!(in alloc; {
        "apexcheckRow/v1": fingerprint,
        "primaryLocationLineHash": fingerprint
    })
}

// The records before the place, which are shown with the result.
fn related_of(alloc: Global, earlier: &[Earlier<'_>]) -> Result<Vec<Value>, AllocError>
    ensures { IfOk result (λ related. map view related.items ≡ all_earlier 0 earlier.now) }
{
    let mut related = Vec::new(alloc);
    for (id, before) in earlier.iter().enumerate() {
        related.push(earlier_of(alloc, id as u64, before)?)?;
    }
    Ok(related)
}

// A record before the place.
fn earlier_of(alloc: Global, id: u64, before: &Earlier<'_>) -> Result<Value, AllocError>
    ensures { IfOk result (λ found. view found ≡ earlier_data id before.now) }
{
    let text = words_of(alloc, before)?;
    let place = place_of(alloc, &before.location)?;
    json!(in alloc; {"id": id, "message": {"text": text}, "physicalLocation": place})
}

fn words_of(alloc: Global, before: &Earlier<'_>) -> Result<String, AllocError>
    ensures { IfOk result (λ words. string_bytes words ≡ earlier_text before.now) }
{
    format!(in alloc;
        "place {}: record {} of core {} ({})",
        before.place, before.seq, before.core, before.kind
    )
}

// A place in a file.
fn place_of(alloc: Global, location: &Location<'_>) -> Result<Value, AllocError>
    ensures { IfOk result (λ place. view place ≡ place_data location.now) }
{
    let artifact = artifact_of(alloc, location.file)?;
    match location.line {
        Some(line) => {
            json!(in alloc; {"artifactLocation": artifact, "region": {"startLine": line}})
        }
        None => json!(in alloc; {"artifactLocation": artifact}),
    }
}

// A file by its reference.
fn artifact_of(alloc: Global, file: &str) -> Result<Value, AllocError>
    ensures { IfOk result (λ artifact. view artifact ≡ artifact_data file.now) }
{
    let uri = uri_of(alloc, file)?;
    let base = base_of(file);
    artifact_with(alloc, uri, base)
}

// The folder from which a file of this name is named. None if the name is absolute.
fn base_of(file: &str) -> Option<&'static str>
    ensures { option_map (λ base. base.now) result ≡ base_of file.now }
{
    if file.starts_with("/") {
        None
    } else {
        Some("SRCROOT")
    }
}

// A file by its reference and the folder from which it is named.
fn artifact_with(alloc: Global, uri: String, base: Option<&str>) -> Result<Value, AllocError>
    ensures { IfOk result (λ artifact. view artifact ≡ artifact_from (string_bytes uri) (option_map (λ base. base.now) base.entry)) }
{
    match base {
        Some(base) => json!(in alloc; {"uri": uri, "uriBaseId": base}),
        None => json!(in alloc; {"uri": uri}),
    }
}
