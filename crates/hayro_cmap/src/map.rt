//! Maps: the CIDs and the texts that the codes of a CMap file stand for.

ghost use Rattle.std.specs.Prelude.{◌≡◌, ◌≢◌, [], ◌∷◌, ◌≤◌, IfErr, IfOk, IfSome, IfNone, IsErrOf, IsSome, MatchOption, OnOk, Some, codes, length};
ghost use Rattle.cmap_load.specs.Answers.{Answers, AnswersByName, IsByName};
ghost use Rattle.cmap_values.specs.Files as files;
ghost use Rattle.cmap_values.specs.NamesSeen.{names_seen};
ghost use Rattle.cmap_load.specs.Identity.{identity_layer};
ghost use Rattle.cmap_binary.specs.BundleSeen.{tables_given};
ghost use Rattle.cmap_load.specs.Layers.{AreUses, Means};
ghost use Rattle.cmap_load.specs.Maps.{ExceedsBudget, FitsBudget, HasNoMap, IsMapOf};
ghost use Rattle.cmap_layers.specs.LayersSeen.{metadata_seen};
ghost use Rattle.cmap_layers.specs.Layers.{top_metadata};
ghost use Rattle.cmap_load.specs.Results.{OpensLayers, ReadsLayers, SalvagesLayers};
ghost use Rattle.std.specs.Str.{chars};
ghost use Rattle.cmap_layers.specs.CodeStretches.{AreCodesOfCid, AreCodesOfText};
ghost use Rattle.cmap_layers.specs.Lookups.{cid_of};
ghost use Rattle.cmap_layers.specs.Searches.{FindsCid, FindsText, GivesText, IsStrictCid};
ghost use Rattle.cmap_layers.specs.StringCodes.{IsNextCode};
ghost use Rattle.cmap_values.specs.CodeLengths.{IsCodeLength, length_of};
ghost use Rattle.cmap_values.specs.Only.{IsOnly};
ghost use Rattle.cmap_values.specs.Outcomes.{Finds, RefusesWith};
ghost use Rattle.cmap_values.specs.declared.fault.Fault.TheVariants as fault;
ghost use Rattle.hayro_cmap.specs.declared.budget.ParseError.TheVariants as parse_error;
ghost use Rattle.cmap_load.specs.declared.refusal.Cause.TheVariants as Cause;

use crate::budget::ParseError;
use crate::files_by_name::FilesByName;
use cmap_binary::Bundle;
use cmap_layers::layers::Layers;
use cmap_layers::string_codes::StringCode;
use cmap_load::{
    Cause, Refusal, SalvagedLayers, Source, identity_h, identity_v, open_layers, read_layers,
    salvaged_layers, uses,
};
use cmap_runs::runs::Looks;
use cmap_tokens::utf16::BfString;
use cmap_values::code_length::CodeLength;
use cmap_values::fault::Fault;
use cmap_values::metadata::Metadata;
use cmap_values::names::{CMapName, Cid};
use cmap_values::range::Range;
use std::alloc::{AllocError, Global};
use std::marker::{Model, PhantomData};

/// The map of a CMap file: the layer of the file, and the layers of the files that it is based on.
#[derive(Debug, Drop)]
pub struct CMap {
    layers: Layers,
}

// A clause sees the list of layers, the top layer first.
impl Model for CMap {
    ghost use Rattle.std.specs.Prelude.{List};
    ghost use Rattle.cmap_layers.specs.Layers.{Layer};

    ghost Value = { List Layer };

    ghost view = { λ map. map.layers };
}

/// The map of a file over the files that it uses, read past their faults, and these faults.
#[derive(Debug, Drop)]
pub struct SalvagedMap<'a> {
    pub map: CMap,
    /// The faults, in the order in which the files are first read. The faults of each file are
    /// listed once, in the order of their offsets, before the faults of the files that the file
    /// uses.
    pub faults: Vec<Refusal<'a>>,
}

impl CMap {
    /// The map with these layers, which a `Loader` gives.
    pub fn of(layers: Layers) -> CMap
        ensures { result ≡ layers }
    {
        CMap { layers }
    }

    /// The map of the CMap file `data`; `None` if the file is refused: the file or a file that it
    /// uses is outside the grammar, a use has no answer, or more than 16 files stand in a chain.
    ///
    /// `get_cmap` is asked for the files that other files use, once for each name: for the uses of
    /// a file in order, and only after the whole file has been read. Each use needs its file, even
    /// if a later use replaces it. A file takes the layers of the last file that it uses. With a
    /// bundle, a file that begins with `bcmap` is read as binary, by the bundle's tables; all other
    /// files are texts.
    ///
    /// `get_cmap` has to give a name the same answer each time. Otherwise the resulting map isn't
    /// specified.
    pub fn parse<'a, F>(
        alloc: Global,
        data: &[u8],
        bundle: Option<&Bundle<'_>>,
        get_cmap: &F,
    ) -> Result<Option<CMap>, AllocError>
    where
        F: Fn(CMapName<'_>) -> Option<&'a [u8]>,
        requires callable { F.IsAlwaysCallable get_cmap.now }
        requires by_name { AnswersByName F.Fn get_cmap.now }

        // The answer is the map of the file, and no other layers are.
        ensures accepts { IfOk result (λ found. IfSome found
            (IsMapOf (tables_given bundle.entry) (Answers F.Fn get_cmap.now) «data».now)) }
        ensures refuses { IfOk result (λ found. IfNone found
            (HasNoMap (tables_given bundle.entry) (Answers F.Fn get_cmap.now) «data».now)) }
    {
        match CMap::parse_within(alloc, None, data, bundle, get_cmap) {
            Ok(map) => Ok(map),
            Err(ParseError::Memory) => Err(AllocError),
            Err(ParseError::OverBudget) => unreachable!(),
        }
    }

    /// The map that `parse` gives, if the files that are opened have at most `budget` bytes
    /// together; `None` is no budget.
    ///
    /// Files count in the order in which they are opened, each before the files that it uses, and a
    /// file that is used twice counts twice. No file is opened after a file outside the grammar or
    /// a use without its file. A file that would exceed the budget isn't read.
    pub fn parse_within<'a, F>(
        alloc: Global,
        budget: Option<u64>,
        data: &[u8],
        bundle: Option<&Bundle<'_>>,
        get_cmap: &F,
    ) -> Result<Option<CMap>, ParseError>
    where
        F: Fn(CMapName<'_>) -> Option<&'a [u8]>,
        requires callable { F.IsAlwaysCallable get_cmap.now }
        requires by_name { AnswersByName F.Fn get_cmap.now }
        ensures accepts { IfOk result (λ found. IfSome found
            (IsMapOf (tables_given bundle.entry) (Answers F.Fn get_cmap.now) «data».now)) }
        ensures refuses { IfOk result (λ found. IfNone found
            (HasNoMap (tables_given bundle.entry) (Answers F.Fn get_cmap.now) «data».now)) }

        // With an answer, the files that are opened are within the budget.
        ensures within { OnOk result
            (FitsBudget (tables_given bundle.entry) (Answers F.Fn get_cmap.now) «data».now budget) }

        // There is a budget, and the files that would be opened exceed it.
        ensures some { IsErrOf result parse_error.OverBudget → IsSome budget }
        ensures over { IsErrOf result parse_error.OverBudget
            → ExceedsBudget (tables_given bundle.entry) (Answers F.Fn get_cmap.now) «data».now budget }
    {
        let source = FilesByName {
            get_cmap,
            of: PhantomData,
        };
        without_refusal(CMap::parse_from(alloc, budget, data, bundle, &source))
    }

    /// The map that `parse_within` gives, with the used files from a `Source`. A refusal contains
    /// the names that lead to the file at fault, and the cause.
    pub fn parse_from<'a, S: Source>(
        alloc: Global,
        budget: Option<u64>,
        data: &'a [u8],
        bundle: Option<&Bundle<'_>>,
        source: &'a S,
    ) -> Result<CMap, Fault<Refusal<'a>>>
        // A caller whose `Source` defines its answer to each name meets both premises.
        requires can_ask { S.can_ask source.now }
        requires by_name { IsByName (S.answers source.now) }
        ensures { ReadsLayers (tables_given bundle.entry) (S.answers source.now) «data».now budget result }
    {
        let layers = read_layers(alloc, budget, data, bundle, source)?;
        Ok(CMap { layers })
    }

    /// The map of the file that `source` answers to this name. The file is read as by `parse_from`,
    /// so the map has the metadata of the file. If no file has the name, Identity-H and Identity-V
    /// are built without a file, and any other name has no map: `None`. ISO 32000-1, 9.7.5.2.
    pub fn open<'a, S: Source>(
        alloc: Global,
        budget: Option<u64>,
        name: &[u8],
        bundle: Option<&Bundle<'_>>,
        source: &'a S,
    ) -> Result<Option<CMap>, Fault<Refusal<'a>>>
        requires can_ask { S.can_ask source.now }
        requires by_name { IsByName (S.answers source.now) }
        ensures { OpensLayers (tables_given bundle.entry) (S.answers source.now) name.now budget result }
    {
        match open_layers(alloc, budget, name, bundle, source)? {
            Some(layers) => Ok(Some(CMap { layers })),
            None => Ok(None),
        }
    }

    /// The map of the CMap file `data` over the files that it uses, read past their faults, and
    /// these faults. If `parse_from` accepts the file, the map is the same, and there is no fault.
    /// If `parse_from` refuses the file, the first fault is the cause of the refusal, or in a text
    /// in rows a fault before the cause.
    ///
    /// A file is read past its faults, once, and its faults are listed once, however often it is
    /// used. A use without a file is a fault too, and so is a use that makes the chain too long;
    /// such a use gives no layers. After a chain that is too long, no further file is opened, and
    /// the uses that follow are passed over. A file that would exceed the budget isn't read, and
    /// gives an empty layer.
    ///
    /// It fails only if memory runs out.
    pub fn salvage<'a, S: Source>(
        alloc: Global,
        budget: Option<u64>,
        data: &'a [u8],
        bundle: Option<&Bundle<'_>>,
        source: &'a S,
    ) -> Result<SalvagedMap<'a>, AllocError>
        requires can_ask { S.can_ask source.now }
        requires by_name { IsByName (S.answers source.now) }
        ensures { IfOk result (λ found. SalvagesLayers (tables_given bundle.entry) (S.answers source.now) «data».now
            budget found.map found.faults.items) }
    {
        let SalvagedLayers { layers, faults } = salvaged_layers(
            alloc, budget, data, bundle, source,
        )?;
        Ok(SalvagedMap {
            map: CMap { layers },
            faults,
        })
    }

    /// The names of the files that the CMap file `data` uses, in order; `None` if `data` is outside
    /// the grammar. The function asks for none of these files. A caller who fetches files one by
    /// one learns from the names which files to fetch. With a bundle, a file that begins with
    /// `bcmap` is read as binary.
    pub fn uses<'a>(
        alloc: Global,
        data: &'a [u8],
        bundle: Option<&Bundle<'_>>,
    ) -> Result<Option<Vec<&'a [u8]>>, AllocError>
        ensures { IfOk result (Finds (AreUses (Means (tables_given bundle.entry)) «data».now)
            (λ names. names_seen names.items)) }
    {
        uses(alloc, data, bundle)
    }

    /// The predefined CMap Identity-H: codes of two bytes are CIDs. ISO 32000-1, 9.7.5.2.
    pub fn identity_h(alloc: Global) -> Result<CMap, AllocError>
        ensures { IfOk result
            (λ map. map ≡ identity_layer (codes "Identity-H") files.horizontal ∷ []) }
    {
        let layers = identity_h(alloc)?;
        Ok(CMap { layers })
    }

    /// The predefined CMap Identity-V: codes of two bytes are CIDs, of vertical text. ISO 32000-1, 9.7.5.2.
    pub fn identity_v(alloc: Global) -> Result<CMap, AllocError>
        ensures { IfOk result
            (λ map. map ≡ identity_layer (codes "Identity-V") files.vertical ∷ []) }
    {
        let layers = identity_v(alloc)?;
        Ok(CMap { layers })
    }

    /// The layers of the map, which answer more than the lookups below.
    #[inline(always)]
    pub fn layers(&self) -> &Layers
        ensures { result.now ≡ self.now }
    {
        &self.layers
    }

    /// The metadata of the file itself, without the metadata of the files that it is based on.
    pub fn metadata(&self) -> &Metadata
        ensures top { top_metadata self.now ≡ Some (metadata_seen result.now) }
        ensures few { length self.now ≤ 16 }
    {
        self.layers().metadata()
    }

    /// The CID of `code`, a code of `byte_len` bytes, big-endian, as `Layers::cid` gives it.
    #[inline(always)]
    pub fn lookup_cid_code(&self, code: u32, byte_len: u8) -> Option<Cid>
        ensures { result ≡ cid_of self.now code byte_len }
    {
        self.layers().cid(code, byte_len, &mut Looks::new())
    }

    /// The answer of `lookup_cid_code`; `looks` counts the runs and declarations that are looked
    /// at.
    pub fn lookup_cid_counted(&self, code: u32, byte_len: u8, looks: &mut Looks) -> Option<Cid>
        ensures { FindsCid self.now code byte_len looks.old looks.new result }
    {
        self.layers().cid(code, byte_len, looks)
    }

    /// The answer of `lookup_cid_code`, if a codespace range of some layer contains the code, else
    /// `None`, as `Layers::strict_cid` gives it.
    pub fn lookup_cid_code_strict(&self, code: u32, byte_len: u8) -> Option<Cid>
        ensures { IsStrictCid self.now code byte_len result }
    {
        self.layers().strict_cid(code, byte_len, &mut Looks::new())
    }

    /// The Unicode text of `code`, as `Layers::text` gives it.
    #[inline(always)]
    pub fn lookup_bf_string(&self, alloc: Global, code: u32) -> Result<Option<BfString>, AllocError>
        ensures { GivesText self.now code result }
    {
        self.layers().text(alloc, code, &mut Looks::new())
    }

    /// The answer of `lookup_bf_string`; `looks` counts the runs and declarations that are looked
    /// at.
    pub fn lookup_bf_counted(
        &self,
        alloc: Global,
        code: u32,
        looks: &mut Looks,
    ) -> Result<Option<BfString>, AllocError>
        ensures { FindsText self.now code looks.old looks.new result }
    {
        self.layers().text(alloc, code, looks)
    }

    /// The code that a string begins with, as [`Layers::next_code`] gives it. ISO 32000-1, 9.7.6.2.
    pub fn next_code(&self, text: &[u8]) -> Option<StringCode>
        ensures code { MatchOption result (text.now ≡ []) (IsOnly (IsNextCode self.now text.now)) }
        ensures length { IfSome result
            (λ found. IsCodeLength found.byte_len × (found.byte_len ≤ length text.now)) }
    {
        self.layers().next_code(text)
    }

    /// The codes of this length that have the CID, as [`Layers::codes_of_cid`] gives them.
    pub fn codes_of_cid(
        &self,
        alloc: Global,
        cid: Cid,
        len: CodeLength,
    ) -> Result<Vec<Range>, AllocError>
        ensures { IfOk result (λ ranges. AreCodesOfCid self.now (length_of len) cid ranges.items) }
    {
        self.layers().codes_of_cid(alloc, cid, len)
    }

    /// The codes that have the text, as [`Layers::codes_of_text`] gives them.
    pub fn codes_of_text(&self, alloc: Global, text: &str) -> Result<Vec<Range>, AllocError>
        ensures { IfOk result
            (λ ranges. AreCodesOfText self.now (chars text.now) ranges.items) }
    {
        self.layers().codes_of_text(alloc, text)
    }

    /// A copy of the map.
    pub fn clone(&self, alloc: Global) -> Result<CMap, AllocError>
        ensures { IfOk result (λ copy. copy ≡ self.now) }
    {
        let layers = self.layers().clone(alloc)?;
        Ok(CMap { layers })
    }
}

/// The found map; `None` if the file is refused for another cause than the budget.
fn without_refusal(found: Result<CMap, Fault<Refusal<'_>>>) -> Result<Option<CMap>, ParseError>
    ensures found { IfOk found.entry (λ map. result ≡ Ok (Some map)) }
    ensures over { IfErr found.entry (RefusesWith (λ refusal. refusal.cause ≡ Cause.OverBudget
        → result ≡ Err parse_error.OverBudget)) }
    ensures none { IfErr found.entry (RefusesWith (λ refusal. refusal.cause ≢ Cause.OverBudget
        → result ≡ Ok None)) }
    ensures memory { found.entry ≡ Err fault.Memory → result ≡ Err parse_error.Memory }
{
    match found {
        Ok(map) => Ok(Some(map)),
        Err(Fault::Refused(refusal)) => match refusal.cause {
            Cause::OverBudget => Err(ParseError::OverBudget),
            _ => Ok(None),
        },
        Err(Fault::Memory) => Err(ParseError::Memory),
    }
}
