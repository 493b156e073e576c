//! Races of other runs: each that is told has a run of its own, which ends with it.
use race_predict::{PredictFault, certificate};
use race_records::Trace;
use race_search::{predict, predict_on};
use race_shards::judge_alone;
use race_text::parse_trace;
use race_verdict::Verdict;
use std::alloc::Global;
use std::test::Fail;

static DECLARED: &str = "gotrace 1 / goroutine w / var x / chan c 1 / mutex m / mutex n / ";

// The events of a clean trace, and the events of the one run that is predicted, if one is, by their indexes.
static ROWS: [(&str, &[u32]); 6] = [
    // Main's section comes first by luck alone: w's can come before it.
    (
        "go main w p / write main x 1 p / lock main m p / unlock main m p / lock w m p / unlock w m p / write w x 2 p",
        &[0, 4, 5, 1, 6],
    ),
    // Both write inside of their sections.
    (
        "go main w p / lock main m p / write main x 1 p / unlock main m p / lock w m p / write w x 2 p / unlock w m p",
        &[],
    ),
    // Each has a mutex of its own, and one in common that orders them by luck.
    (
        "go main w p / lock main m p / write main x 1 p / unlock main m p / lock main n p / unlock main n p / lock w n p / unlock w n p / write w x 2 p",
        &[0, 1, 6, 7, 2, 8],
    ),
    // What starts w stands between them.
    ("write main x 1 p / go main w p / write w x 2 p", &[]),
    // So does a value that is handed on.
    (
        "go main w p / write main x 1 p / send main c 1 p / recv w c 1 p / write w x 2 p",
        &[],
    ),
    // Both read.
    (
        "go main w p / read main x 0 p / lock main m p / unlock main m p / lock w m p / unlock w m p / read w x 0 p",
        &[],
    ),
];

// The trace of these events.
fn traced(alloc: Global, events: &str) -> Result<Trace, Fail> {
    let mut text = String::new(alloc);
    for line in DECLARED.split(" / ").chain(events.split(" / ")) {
        if !line.is_empty() {
            text.push_str(line)?;
            text.push('\n')?;
        }
    }
    Ok(parse_trace(alloc, text.as_bytes())?)
}

// The run that is predicted of a clean trace.
fn predicted(
    alloc: Global,
    events: &str,
    most: u32,
    turned: bool,
) -> Result<Option<Vec<u32>>, Fail> {
    let trace = traced(alloc, events)?;
    let verdict = judge_alone(alloc, &trace)?;
    let mut predictions = predict(alloc, &trace, &verdict, most, turned)?;
    match predictions.found.pop() {
        Some(race) => {
            let Some(prediction) = predict_on(alloc, &trace, &verdict, race.var, turned)? else {
                return Ok(None);
            };
            let shown = certificate(alloc, &trace, &verdict, &prediction)?;
            let ends_in_race = match judge_alone(alloc, &shown)? {
                Verdict::Races(races) => {
                    races
                        .as_slice()
                        .iter()
                        .any(|race| race.var == prediction.var)
                }
                _ => false,
            };
            let ends_with = [race.first, race.second];
            let is_its_pair = prediction.order.ends_with(&ends_with);
            if ends_in_race && is_its_pair && shown.len() == prediction.order.len() {
                Ok(Some(prediction.order))
            } else {
                Ok(None)
            }
        }
        None => Ok(Some(Vec::new(alloc))),
    }
}

#[test]
fn a_race_that_the_order_hid_is_predicted_with_a_run(rt: HostRuntime) -> Result<(), Fail> {
    for &(events, order) in &ROWS {
        let told = predicted(rt.alloc(), events, 8, false)?;
        assert!(rt;
            told.is_some_and(|told| told.as_slice() == order),
            "{events}"
        );
    }
    Ok(())
}

// Main's access stands in its section, so w's section has to come before it.
static TURNED: &str =
    "go main w p / lock main m p / write main x 1 p / unlock main m p / lock w m p / unlock w m p / write w x 2 p";

#[test]
fn sections_are_turned_round_where_asked_for(rt: HostRuntime) -> Result<(), Fail> {
    let kept = predicted(rt.alloc(), TURNED, 8, false)?;
    assert!(rt; kept.is_some_and(|kept| kept.is_empty()));
    let turned = predicted(rt.alloc(), TURNED, 8, true)?;
    assert!(rt; turned.is_some_and(|turned| turned.as_slice() == [0, 4, 5, 1, 2, 6].as_slice()));
    Ok(())
}

#[test]
fn one_variable_is_searched_alone(rt: HostRuntime) -> Result<(), Fail> {
    let alloc = rt.alloc();
    let trace = traced(alloc, ROWS[0].0)?;
    let verdict = judge_alone(alloc, &trace)?;
    let found = predict_on(alloc, &trace, &verdict, 0, false)?;
    assert!(rt; found.is_some_and(|found| found.order.as_slice() == ROWS[0].1));
    assert!(rt; predict_on(alloc, &trace, &verdict, 7, true)?.is_none());
    Ok(())
}

#[test]
fn no_more_are_told_than_are_wanted(rt: HostRuntime) -> Result<(), Fail> {
    let told = predicted(rt.alloc(), ROWS[0].0, 0, false)?;
    assert!(rt; told.is_some_and(|told| told.is_empty()));
    Ok(())
}

#[test]
fn what_is_no_prediction_has_no_certificate(rt: HostRuntime) -> Result<(), Fail> {
    let alloc = rt.alloc();
    let trace = traced(alloc, ROWS[0].0)?;
    let verdict = judge_alone(alloc, &trace)?;
    let told = match predict_on(alloc, &trace, &verdict, 0, false)? {
        Some(mut prediction) => {
            prediction.order.truncate(3);
            certificate(alloc, &trace, &verdict, &prediction).err()
        }
        None => None,
    };
    assert!(rt; told == Some(PredictFault::NotAPrediction));
    Ok(())
}
