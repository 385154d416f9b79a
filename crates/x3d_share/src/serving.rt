//! The command that serves the worlds of a folder.

use app_serve::{End, Etcd, EtcdWay, Serving, etcd_at, place_of, serve};
use app_words::ServeOrder;
use std::cell::RefCell;

/// The texts of the options of `serve`, if they were given.
#[derive(Clone, Copy)]
pub struct ServeTexts<'a> {
    /// That of `--listen`.
    pub listen: Option<&'a str>,
    /// That of `--etcd`.
    pub etcd: Option<&'a str>,
    /// That of `--login`.
    pub login: Option<&'a str>,
}

/// Serves the worlds of a folder, whose logs etcd has at the addresses of a text.
fn serve_over_etcd(
    rt: &HostRuntime,
    folder: &str,
    serving: &Serving,
    text: &str,
    login: Option<&str>,
) -> Result<(), End> {
    let engine = etcd_at(rt, text, login)?;
    let etcd = RefCell::new(Etcd::new(rt, engine, serving.verbose));
    let done = serve(rt, folder, serving, Some(EtcdWay::new(&etcd)));
    drop(etcd);
    done
}

/// Serves the worlds of a folder until the process is ended. Fails with `NoAddress`, with what is
/// wrong with the file of the login, and then with `Port`, `Memory` or `NoFolder`.
pub fn serve_folder(
    rt: &HostRuntime,
    folder: &str,
    texts: &ServeTexts<'_>,
    asked: &ServeOrder,
) -> Result<(), End> {
    let serving = Serving {
        place: place_of(rt, asked.port, texts.listen)?,
        is_open: asked.is_open,
        viewers: asked.viewers,
        keep: asked.keep,
        forget: asked.forget,
        base: asked.base,
        every: asked.every,
        verbose: asked.verbose,
    };
    match texts.etcd {
        Some(text) => serve_over_etcd(rt, folder, &serving, text, texts.login),
        None => serve(rt, folder, &serving, None),
    }
}
