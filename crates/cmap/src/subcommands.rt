//! The subcommand that the arguments name, and its run.

use crate::bundle::bundle_options;
use crate::check::Checking;
use crate::decode::decode;
use crate::diff::{DiffOptions, diff};
use crate::encode::{EncodeOptions, encode};
use crate::find::find;
use crate::font::StringOptions;
use crate::info::{InfoOptions, info};
use crate::list::{ListOptions, list};
use crate::locate::{LocateOptions, locate};
use crate::lookup::{LookupOptions, lookup};
use crate::make::make_options;
use crate::options::Sources;
use crate::rewrite::Rewriting;
use crate::text::text;
use clap::ArgMatches;
use cmap_bundle::command::{BundleOptions, bundle};
use cmap_io::failure::Failure;
use cmap_rewrite::make::{MakeOptions, make};
use cmap_sources::bases::Bases;

/// A subcommand with its parsed arguments.
#[derive(Clone, Copy)]
pub(crate) enum Subcommand<'m, 'w> {
    Info(InfoOptions<'m, 'w>),
    List(ListOptions<'m, 'w>),
    Find(StringOptions<'m, 'w>),
    Diff(DiffOptions<'m, 'w>),
    Check(Checking<'m, 'w>),
    Decode(StringOptions<'m, 'w>),
    Text(StringOptions<'m, 'w>),
    Encode(EncodeOptions<'m, 'w>),
    Lookup(LookupOptions<'m, 'w>),
    Where(LocateOptions<'m, 'w>),
    Rewrite(Rewriting<'m, 'w>),
    Make(MakeOptions<'m, 'w>),
    Bundle(BundleOptions<'m, 'w>),
}

impl<'m, 'w> Subcommand<'m, 'w> {
    /// The subcommand of this name. `clap` refuses names other than these.
    pub(crate) fn of(name: &str, arguments: &'m ArgMatches<'w>) -> Option<Subcommand<'m, 'w>> {
        Some(match name {
            "info" => Subcommand::Info(InfoOptions::of(arguments)),
            "list" => Subcommand::List(ListOptions::of(arguments)),
            "find" => Subcommand::Find(StringOptions::of(arguments)),
            "diff" => Subcommand::Diff(DiffOptions::of(arguments)),
            "check" => Subcommand::Check(Checking::of(arguments)),
            "decode" => Subcommand::Decode(StringOptions::of_shown(arguments)),
            "text" => Subcommand::Text(StringOptions::of_shown(arguments)),
            "encode" => Subcommand::Encode(EncodeOptions::of(arguments)),
            "lookup" => Subcommand::Lookup(LookupOptions::of(arguments)),
            "where" => Subcommand::Where(LocateOptions::of(arguments)),
            "write" => Subcommand::Rewrite(Rewriting::writing(arguments)),
            "repair" => Subcommand::Rewrite(Rewriting::repairing(arguments)),
            "make" => Subcommand::Make(make_options(arguments)),
            "bundle" => Subcommand::Bundle(bundle_options(arguments)),
            _ => return None,
        })
    }

    /// The places where files are looked up by their names. `make` and `bundle` look up no names.
    pub(crate) fn sources(&self) -> Sources<'m, 'w> {
        match self {
            Subcommand::Info(options) => options.sources,
            Subcommand::List(options) => options.sources,
            Subcommand::Find(options) => options.sources,
            Subcommand::Diff(options) => options.sources,
            Subcommand::Check(checking) => checking.sources,
            Subcommand::Decode(options) => options.sources,
            Subcommand::Text(options) => options.sources,
            Subcommand::Encode(options) => options.of_texts.sources,
            Subcommand::Lookup(options) => options.sources,
            Subcommand::Where(options) => options.sources,
            Subcommand::Rewrite(rewriting) => rewriting.sources,
            Subcommand::Make(_) | Subcommand::Bundle(_) => Sources::nowhere(),
        }
    }

    /// Runs the subcommand, and returns the exit status.
    pub(crate) fn run(&self, rt: &HostRuntime, bases: &mut Bases<'_>) -> Result<u8, Failure> {
        match self {
            Subcommand::Info(options) => info(rt, options, bases),
            Subcommand::List(options) => list(rt, options, bases),
            Subcommand::Find(options) => find(rt, options, bases),
            Subcommand::Diff(options) => diff(rt, options, bases),
            Subcommand::Check(checking) => checking.run(rt, bases),
            Subcommand::Decode(options) => decode(rt, options, bases),
            Subcommand::Text(options) => text(rt, options, bases),
            Subcommand::Encode(options) => encode(rt, options, bases),
            Subcommand::Lookup(options) => lookup(rt, options, bases),
            Subcommand::Where(options) => locate(rt, options, bases),
            Subcommand::Rewrite(rewriting) => rewriting.run(rt, bases),
            Subcommand::Make(options) => make(rt, options),
            Subcommand::Bundle(options) => bundle(rt, options),
        }
    }
}
