//! The printed texts, whole.
mod plans;
mod reports;
mod verdicts;

use junction_files::read;
use junction_model::Junction;
use plan_certificate::Certificate;
use plan_model::FittedPlan;
use report_text::{report, summary};
use samples::questions::has_each_group;
use std::alloc::Global;
use std::process::Abort;
use std::test::Fail;

/// The certificate of this text.
fn certificate_of(rt: &impl Abort, alloc: Global, junction: &Junction, text: &str) -> Certificate {
    junction.rules();
    let groups = junction.groups().len();
    match plan_certificate::read(alloc, text.as_bytes(), groups) {
        Ok(certificate) => certificate,
        Err(_) => panic!(rt; "no certificate"),
    }
}

/// The report of a certificate on a junction, each as its text.
fn reported(rt: &impl Abort, alloc: Global, file: &str, text: &str) -> Result<Vec<u8>, Fail> {
    let junction = read(alloc, file.as_bytes())?;
    let certificate = certificate_of(rt, alloc, &junction, text);
    let Some(plan) = certificate.plan else {
        return Ok(report(alloc, &junction, &certificate, None)?);
    };
    assert!(rt; has_each_group(&junction, &plan));
    match FittedPlan::new(&junction, plan) {
        Ok(fitted) => Ok(report(alloc, &junction, &certificate, Some(&fitted))?),
        Err(_) => panic!(rt; "it doesn't fit"),
    }
}

/// The summary of a certificate on a junction, each as its text.
fn summed(
    rt: &impl Abort,
    alloc: Global,
    number: u32,
    file: &str,
    text: &str,
) -> Result<Vec<u8>, Fail> {
    let junction = read(alloc, file.as_bytes())?;
    let certificate = certificate_of(rt, alloc, &junction, text);
    let Some(plan) = certificate.plan else {
        return Ok(summary(alloc, number, &junction, &certificate, None)?);
    };
    assert!(rt; has_each_group(&junction, &plan));
    match FittedPlan::new(&junction, plan) {
        Ok(fitted) => Ok(summary(alloc, number, &junction, &certificate, Some(&fitted))?),
        Err(_) => panic!(rt; "it doesn't fit"),
    }
}
