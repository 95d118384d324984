//! The methods of the API as one table: what each is called, takes and gives.
ghost use Rattle.std.specs.Prelude.{◌≡◌, bytes_eq, IfSome, Some, length, map, option_map, slice_get};
ghost use Rattle.nv_args.specs.Table.{method_named, other_names, result_name, signature_among, table};
ghost use Rattle.nv_args.specs.Methods.{IsBrief, signature_of};
ghost use Rattle.nv_args.specs.inside.Lookup.{of_length};

use crate::kinds::Kind;
use crate::methods::{BufferMethod, MarkMethod, Method, UiMethod, WindowMethod};

/// A parameter: what it takes, and its name.
#[derive(Clone, Copy)]
pub struct Parameter(pub Kind, pub &'static str);

/// What a method is called, takes and gives (Neovim help `api-metadata`).
#[derive(Clone, Copy)]
pub struct Signature {
    pub name: &'static str,
    pub method: Method,
    pub parameters: &'static [Parameter],
    /// The type of the result, if it has one.
    pub result: Option<Kind>,
    /// Whether a call may change what is seen on a screen.
    pub is_seen: bool,
}

// The methods, in the order in which they are told.
static SIGNATURES: [Signature; 62] = [
    Signature {
        name: "nvim_get_api_info",
        method: Method::Buffer(BufferMethod::GetApiInfo),
        parameters: &[],
        result: Some(Kind::Array),
        is_seen: false,
    },
    Signature {
        name: "nvim_set_client_info",
        method: Method::Buffer(BufferMethod::SetClientInfo),
        parameters: &[
            Parameter(Kind::String, "name"),
            Parameter(Kind::Dict, "version"),
            Parameter(Kind::String, "type"),
            Parameter(Kind::Dict, "methods"),
            Parameter(Kind::Dict, "attributes"),
        ],
        result: None,
        is_seen: false,
    },
    Signature {
        name: "nvim_call_atomic",
        method: Method::Atomic,
        parameters: &[Parameter(Kind::Calls, "calls")],
        result: Some(Kind::Array),
        is_seen: false,
    },
    Signature {
        name: "nvim_command",
        method: Method::Buffer(BufferMethod::Command),
        parameters: &[Parameter(Kind::String, "command")],
        result: None,
        is_seen: true,
    },
    Signature {
        name: "nvim_strwidth",
        method: Method::Ui(UiMethod::Strwidth),
        parameters: &[Parameter(Kind::String, "text")],
        result: Some(Kind::Integer),
        is_seen: false,
    },
    Signature {
        name: "nvim_get_option_value",
        method: Method::Buffer(BufferMethod::GetOptionValue),
        parameters: &[
            Parameter(Kind::String, "name"),
            Parameter(Kind::Dict, "opts"),
        ],
        result: Some(Kind::Object),
        is_seen: false,
    },
    Signature {
        name: "nvim_set_option_value",
        method: Method::Buffer(BufferMethod::SetOptionValue),
        parameters: &[
            Parameter(Kind::String, "name"),
            Parameter(Kind::Object, "value"),
            Parameter(Kind::Dict, "opts"),
        ],
        result: None,
        is_seen: true,
    },
    Signature {
        name: "nvim_list_bufs",
        method: Method::Buffer(BufferMethod::ListBufs),
        parameters: &[],
        result: Some(Kind::Array),
        is_seen: false,
    },
    Signature {
        name: "nvim_get_current_buf",
        method: Method::Buffer(BufferMethod::GetCurrentBuf),
        parameters: &[],
        result: Some(Kind::Buffer),
        is_seen: false,
    },
    Signature {
        name: "nvim_set_current_buf",
        method: Method::Buffer(BufferMethod::SetCurrentBuf),
        parameters: &[Parameter(Kind::Buffer, "buffer")],
        result: None,
        is_seen: true,
    },
    Signature {
        name: "nvim_create_buf",
        method: Method::Buffer(BufferMethod::CreateBuf),
        parameters: &[
            Parameter(Kind::Boolean, "listed"),
            Parameter(Kind::Boolean, "scratch"),
        ],
        result: Some(Kind::Buffer),
        is_seen: false,
    },
    Signature {
        name: "nvim_buf_delete",
        method: Method::Buffer(BufferMethod::BufDelete),
        parameters: &[
            Parameter(Kind::Buffer, "buffer"),
            Parameter(Kind::Dict, "opts"),
        ],
        result: None,
        is_seen: true,
    },
    Signature {
        name: "nvim_buf_is_valid",
        method: Method::Buffer(BufferMethod::BufIsValid),
        parameters: &[Parameter(Kind::BufferId, "buffer")],
        result: Some(Kind::Boolean),
        is_seen: false,
    },
    Signature {
        name: "nvim_buf_get_name",
        method: Method::Buffer(BufferMethod::BufGetName),
        parameters: &[Parameter(Kind::Buffer, "buffer")],
        result: Some(Kind::String),
        is_seen: false,
    },
    Signature {
        name: "nvim_buf_set_name",
        method: Method::Buffer(BufferMethod::BufSetName),
        parameters: &[
            Parameter(Kind::Buffer, "buffer"),
            Parameter(Kind::String, "name"),
        ],
        result: None,
        is_seen: true,
    },
    Signature {
        name: "nvim_buf_line_count",
        method: Method::Buffer(BufferMethod::BufLineCount),
        parameters: &[Parameter(Kind::Buffer, "buffer")],
        result: Some(Kind::Integer),
        is_seen: false,
    },
    Signature {
        name: "nvim_buf_get_changedtick",
        method: Method::Buffer(BufferMethod::BufGetChangedtick),
        parameters: &[Parameter(Kind::Buffer, "buffer")],
        result: Some(Kind::Integer),
        is_seen: false,
    },
    Signature {
        name: "nvim_buf_get_offset",
        method: Method::Buffer(BufferMethod::BufGetOffset),
        parameters: &[
            Parameter(Kind::Buffer, "buffer"),
            Parameter(Kind::Integer, "index"),
        ],
        result: Some(Kind::Integer),
        is_seen: false,
    },
    Signature {
        name: "nvim_buf_get_lines",
        method: Method::Buffer(BufferMethod::BufGetLines),
        parameters: &[
            Parameter(Kind::Buffer, "buffer"),
            Parameter(Kind::Integer, "start"),
            Parameter(Kind::Integer, "end"),
            Parameter(Kind::Boolean, "strict_indexing"),
        ],
        result: Some(Kind::Array),
        is_seen: false,
    },
    Signature {
        name: "nvim_buf_set_lines",
        method: Method::Buffer(BufferMethod::BufSetLines),
        parameters: &[
            Parameter(Kind::Buffer, "buffer"),
            Parameter(Kind::Integer, "start"),
            Parameter(Kind::Integer, "end"),
            Parameter(Kind::Boolean, "strict_indexing"),
            Parameter(Kind::Lines, "replacement"),
        ],
        result: None,
        is_seen: true,
    },
    Signature {
        name: "nvim_buf_get_text",
        method: Method::Buffer(BufferMethod::BufGetText),
        parameters: &[
            Parameter(Kind::Buffer, "buffer"),
            Parameter(Kind::Integer, "start_row"),
            Parameter(Kind::Integer, "start_col"),
            Parameter(Kind::Integer, "end_row"),
            Parameter(Kind::Integer, "end_col"),
            Parameter(Kind::Dict, "opts"),
        ],
        result: Some(Kind::Array),
        is_seen: false,
    },
    Signature {
        name: "nvim_buf_set_text",
        method: Method::Buffer(BufferMethod::BufSetText),
        parameters: &[
            Parameter(Kind::Buffer, "buffer"),
            Parameter(Kind::Integer, "start_row"),
            Parameter(Kind::Integer, "start_col"),
            Parameter(Kind::Integer, "end_row"),
            Parameter(Kind::Integer, "end_col"),
            Parameter(Kind::Lines, "replacement"),
        ],
        result: None,
        is_seen: true,
    },
    Signature {
        name: "nvim_buf_attach",
        method: Method::Buffer(BufferMethod::BufAttach),
        parameters: &[
            Parameter(Kind::Buffer, "buffer"),
            Parameter(Kind::Boolean, "send_buffer"),
            Parameter(Kind::Dict, "opts"),
        ],
        result: Some(Kind::Boolean),
        is_seen: false,
    },
    Signature {
        name: "nvim_buf_detach",
        method: Method::Buffer(BufferMethod::BufDetach),
        parameters: &[Parameter(Kind::Buffer, "buffer")],
        result: Some(Kind::Boolean),
        is_seen: false,
    },
    Signature {
        name: "nvim_create_namespace",
        method: Method::Mark(MarkMethod::CreateNamespace),
        parameters: &[Parameter(Kind::String, "name")],
        result: Some(Kind::Integer),
        is_seen: false,
    },
    Signature {
        name: "nvim_get_namespaces",
        method: Method::Mark(MarkMethod::GetNamespaces),
        parameters: &[],
        result: Some(Kind::Dict),
        is_seen: false,
    },
    Signature {
        name: "nvim_buf_set_extmark",
        method: Method::Mark(MarkMethod::BufSetExtmark),
        parameters: &[
            Parameter(Kind::Buffer, "buffer"),
            Parameter(Kind::Integer, "ns_id"),
            Parameter(Kind::Integer, "line"),
            Parameter(Kind::Integer, "col"),
            Parameter(Kind::Dict, "opts"),
        ],
        result: Some(Kind::Integer),
        is_seen: true,
    },
    Signature {
        name: "nvim_buf_del_extmark",
        method: Method::Mark(MarkMethod::BufDelExtmark),
        parameters: &[
            Parameter(Kind::Buffer, "buffer"),
            Parameter(Kind::Integer, "ns_id"),
            Parameter(Kind::Integer, "id"),
        ],
        result: Some(Kind::Boolean),
        is_seen: true,
    },
    Signature {
        name: "nvim_buf_get_extmark_by_id",
        method: Method::Mark(MarkMethod::BufGetExtmarkById),
        parameters: &[
            Parameter(Kind::Buffer, "buffer"),
            Parameter(Kind::Integer, "ns_id"),
            Parameter(Kind::Integer, "id"),
            Parameter(Kind::Dict, "opts"),
        ],
        result: Some(Kind::Array),
        is_seen: false,
    },
    Signature {
        name: "nvim_buf_get_extmarks",
        method: Method::Mark(MarkMethod::BufGetExtmarks),
        parameters: &[
            Parameter(Kind::Buffer, "buffer"),
            Parameter(Kind::Integer, "ns_id"),
            Parameter(Kind::MarkPlace, "start"),
            Parameter(Kind::MarkPlace, "end"),
            Parameter(Kind::Dict, "opts"),
        ],
        result: Some(Kind::Array),
        is_seen: false,
    },
    Signature {
        name: "nvim_buf_clear_namespace",
        method: Method::Mark(MarkMethod::BufClearNamespace),
        parameters: &[
            Parameter(Kind::Buffer, "buffer"),
            Parameter(Kind::Integer, "ns_id"),
            Parameter(Kind::Integer, "line_start"),
            Parameter(Kind::Integer, "line_end"),
        ],
        result: None,
        is_seen: true,
    },
    Signature {
        name: "nvim_set_hl",
        method: Method::Mark(MarkMethod::SetHl),
        parameters: &[
            Parameter(Kind::Integer, "ns_id"),
            Parameter(Kind::String, "name"),
            Parameter(Kind::Dict, "val"),
        ],
        result: None,
        is_seen: true,
    },
    Signature {
        name: "nvim_get_hl",
        method: Method::Mark(MarkMethod::GetHl),
        parameters: &[
            Parameter(Kind::Integer, "ns_id"),
            Parameter(Kind::Dict, "opts"),
        ],
        result: Some(Kind::Dict),
        is_seen: false,
    },
    Signature {
        name: "nvim_get_hl_id_by_name",
        method: Method::Mark(MarkMethod::GetHlIdByName),
        parameters: &[Parameter(Kind::String, "name")],
        result: Some(Kind::Integer),
        is_seen: false,
    },
    Signature {
        name: "nvim_list_wins",
        method: Method::Window(WindowMethod::ListWins),
        parameters: &[],
        result: Some(Kind::Array),
        is_seen: false,
    },
    Signature {
        name: "nvim_get_current_win",
        method: Method::Window(WindowMethod::GetCurrentWin),
        parameters: &[],
        result: Some(Kind::Window),
        is_seen: false,
    },
    Signature {
        name: "nvim_set_current_win",
        method: Method::Window(WindowMethod::SetCurrentWin),
        parameters: &[Parameter(Kind::Window, "window")],
        result: None,
        is_seen: true,
    },
    Signature {
        name: "nvim_open_win",
        method: Method::Window(WindowMethod::OpenWin),
        parameters: &[
            Parameter(Kind::Buffer, "buffer"),
            Parameter(Kind::Boolean, "enter"),
            Parameter(Kind::Dict, "config"),
        ],
        result: Some(Kind::Window),
        is_seen: true,
    },
    Signature {
        name: "nvim_win_close",
        method: Method::Window(WindowMethod::WinClose),
        parameters: &[
            Parameter(Kind::Window, "window"),
            Parameter(Kind::Boolean, "force"),
        ],
        result: None,
        is_seen: true,
    },
    Signature {
        name: "nvim_win_is_valid",
        method: Method::Window(WindowMethod::WinIsValid),
        parameters: &[Parameter(Kind::WindowId, "window")],
        result: Some(Kind::Boolean),
        is_seen: false,
    },
    Signature {
        name: "nvim_win_get_buf",
        method: Method::Window(WindowMethod::WinGetBuf),
        parameters: &[Parameter(Kind::Window, "window")],
        result: Some(Kind::Buffer),
        is_seen: false,
    },
    Signature {
        name: "nvim_win_set_buf",
        method: Method::Window(WindowMethod::WinSetBuf),
        parameters: &[
            Parameter(Kind::Window, "window"),
            Parameter(Kind::Buffer, "buffer"),
        ],
        result: None,
        is_seen: true,
    },
    Signature {
        name: "nvim_win_get_cursor",
        method: Method::Window(WindowMethod::WinGetCursor),
        parameters: &[Parameter(Kind::Window, "window")],
        result: Some(Kind::Array),
        is_seen: false,
    },
    Signature {
        name: "nvim_win_set_cursor",
        method: Method::Window(WindowMethod::WinSetCursor),
        parameters: &[
            Parameter(Kind::Window, "window"),
            Parameter(Kind::Cursor, "pos"),
        ],
        result: None,
        is_seen: true,
    },
    Signature {
        name: "nvim_win_get_height",
        method: Method::Window(WindowMethod::WinGetHeight),
        parameters: &[Parameter(Kind::Window, "window")],
        result: Some(Kind::Integer),
        is_seen: false,
    },
    Signature {
        name: "nvim_win_get_width",
        method: Method::Window(WindowMethod::WinGetWidth),
        parameters: &[Parameter(Kind::Window, "window")],
        result: Some(Kind::Integer),
        is_seen: false,
    },
    Signature {
        name: "nvim_win_set_height",
        method: Method::Window(WindowMethod::WinSetHeight),
        parameters: &[
            Parameter(Kind::Window, "window"),
            Parameter(Kind::Integer, "height"),
        ],
        result: None,
        is_seen: true,
    },
    Signature {
        name: "nvim_win_set_width",
        method: Method::Window(WindowMethod::WinSetWidth),
        parameters: &[
            Parameter(Kind::Window, "window"),
            Parameter(Kind::Integer, "width"),
        ],
        result: None,
        is_seen: true,
    },
    Signature {
        name: "nvim_win_get_position",
        method: Method::Window(WindowMethod::WinGetPosition),
        parameters: &[Parameter(Kind::Window, "window")],
        result: Some(Kind::Array),
        is_seen: false,
    },
    Signature {
        name: "nvim_win_get_tabpage",
        method: Method::Window(WindowMethod::WinGetTabpage),
        parameters: &[Parameter(Kind::Window, "window")],
        result: Some(Kind::Tabpage),
        is_seen: false,
    },
    Signature {
        name: "nvim_list_tabpages",
        method: Method::Window(WindowMethod::ListTabpages),
        parameters: &[],
        result: Some(Kind::Array),
        is_seen: false,
    },
    Signature {
        name: "nvim_get_current_tabpage",
        method: Method::Window(WindowMethod::GetCurrentTabpage),
        parameters: &[],
        result: Some(Kind::Tabpage),
        is_seen: false,
    },
    Signature {
        name: "nvim_set_current_tabpage",
        method: Method::Window(WindowMethod::SetCurrentTabpage),
        parameters: &[Parameter(Kind::Tabpage, "tabpage")],
        result: None,
        is_seen: true,
    },
    Signature {
        name: "nvim_tabpage_is_valid",
        method: Method::Window(WindowMethod::TabpageIsValid),
        parameters: &[Parameter(Kind::TabpageId, "tabpage")],
        result: Some(Kind::Boolean),
        is_seen: false,
    },
    Signature {
        name: "nvim_tabpage_list_wins",
        method: Method::Window(WindowMethod::TabpageListWins),
        parameters: &[Parameter(Kind::Tabpage, "tabpage")],
        result: Some(Kind::Array),
        is_seen: false,
    },
    Signature {
        name: "nvim_tabpage_get_win",
        method: Method::Window(WindowMethod::TabpageGetWin),
        parameters: &[Parameter(Kind::Tabpage, "tabpage")],
        result: Some(Kind::Window),
        is_seen: false,
    },
    Signature {
        name: "nvim_tabpage_get_number",
        method: Method::Window(WindowMethod::TabpageGetNumber),
        parameters: &[Parameter(Kind::Tabpage, "tabpage")],
        result: Some(Kind::Integer),
        is_seen: false,
    },
    Signature {
        name: "nvim_ui_attach",
        method: Method::Ui(UiMethod::UiAttach),
        parameters: &[
            Parameter(Kind::Integer, "width"),
            Parameter(Kind::Integer, "height"),
            Parameter(Kind::Dict, "options"),
        ],
        result: None,
        is_seen: true,
    },
    Signature {
        name: "nvim_ui_detach",
        method: Method::Ui(UiMethod::UiDetach),
        parameters: &[],
        result: None,
        is_seen: true,
    },
    Signature {
        name: "nvim_ui_try_resize",
        method: Method::Ui(UiMethod::UiTryResize),
        parameters: &[
            Parameter(Kind::Integer, "width"),
            Parameter(Kind::Integer, "height"),
        ],
        result: None,
        is_seen: true,
    },
    Signature {
        name: "nvim_ui_set_option",
        method: Method::Ui(UiMethod::UiSetOption),
        parameters: &[
            Parameter(Kind::String, "name"),
            Parameter(Kind::Object, "value"),
        ],
        result: None,
        is_seen: false,
    },
    Signature {
        name: "nvim_list_uis",
        method: Method::Ui(UiMethod::ListUis),
        parameters: &[],
        result: Some(Kind::Array),
        is_seen: false,
    },
];

// Names that real clients use, of which nothing is told: two methods by their old names, and the
// notification by which a client answers one that it does not know.
static OTHER_NAMES: [Signature; 3] = [
    Signature {
        name: "vim_get_api_info",
        method: Method::Buffer(BufferMethod::GetApiInfo),
        parameters: &[],
        result: Some(Kind::Array),
        is_seen: false,
    },
    Signature {
        name: "ui_try_resize",
        method: Method::Ui(UiMethod::UiTryResize),
        parameters: &[
            Parameter(Kind::Integer, "width"),
            Parameter(Kind::Integer, "height"),
        ],
        result: None,
        is_seen: true,
    },
    Signature {
        name: "nvim_error_event",
        method: Method::PassedOver,
        parameters: &[],
        result: None,
        is_seen: false,
    },
];

/// All methods, in the order in which they are told.
pub fn told_signatures() -> &'static [Signature]
    ensures { map signature_of result.now ≡ table }
{
    &SIGNATURES
}

// The other names.
fn other_names() -> &'static [Signature]
    ensures { map signature_of result.now ≡ other_names }
{
    &OTHER_NAMES
}

// The places, from 0, of the methods whose names have this length.
fn places_of_length(count: usize) -> &'static [u8]
    ensures { map (slice_get table) result.now ≡ map Some (of_length count table) }
{
    match count {
        11 => &[31, 32],
        12 => &[3],
        13 => &[4, 37, 61],
        14 => &[7, 34, 38, 57, 58],
        15 => &[10, 11, 22, 23],
        16 => &[2, 40, 41],
        17 => &[0, 12, 13, 14, 20, 21, 39],
        18 => &[18, 19, 45, 47, 50, 59, 60],
        19 => &[15, 17, 25, 42, 43, 44, 46],
        20 => &[1, 8, 9, 26, 27, 35, 36, 49, 55],
        21 => &[5, 6, 24, 29, 48, 53],
        22 => &[33, 54],
        23 => &[56],
        24 => &[16, 30, 51, 52],
        26 => &[28],
        _ => &[],
    }
}

// The byte, from 0, in which names of one length differ most often.
const TELLING: usize = 9;

// Whether two names are one. The telling bytes are compared first.
fn is_one(name: &[u8], told: &[u8]) -> bool
    ensures { result ≡ bytes_eq name.now told.now }
{
    match (name.get(TELLING), told.get(TELLING)) {
        (Some(byte), Some(other)) if *byte != *other => false,
        _ => name == told,
    }
}

// The signature of this name, by the places of those whose names are as long.
fn named_at(
    name: &[u8],
    signatures: &'static [Signature],
    places: &[u8],
) -> Option<&'static Signature>
    requires { map (slice_get (map signature_of signatures.now)) places.now
        ≡ map Some (of_length (length name.now) (map signature_of signatures.now)) }
    ensures { option_map (λ signature. signature_of signature.now) result
        ≡ signature_among name.now (map signature_of signatures.now) }
{
    for place in places {
        let signature = &signatures[usize::from(*place)];
        if is_one(name, signature.name.as_bytes()) {
            return Some(signature);
        }
    }
    None
}

// The first signature of this name.
fn named(name: &[u8], signatures: &'static [Signature]) -> Option<&'static Signature>
    ensures { option_map (λ signature. signature_of signature.now) result
        ≡ signature_among name.now (map signature_of signatures.now) }
{
    for signature in signatures {
        if name == signature.name.as_bytes() {
            return Some(signature);
        }
    }
    None
}

/// The method of this name; none where neither table has it.
pub fn method_of(name: &[u8]) -> Option<&'static Signature>
    ensures signature { option_map (λ signature. signature_of signature.now) result
        ≡ method_named name.now }
    ensures name { IfSome result (λ signature. signature.now.name.now ≡ name.now) }
    ensures brief { IfSome result (λ signature. IsBrief signature.now) }
{
    match named_at(name, told_signatures(), places_of_length(name.len())) {
        Some(signature) => Some(signature),
        None => named(name, other_names()),
    }
}

impl Signature {
    /// The type of its result, as it is told.
    pub fn result_name(&self) -> &'static str
        ensures { result.now ≡ result_name (signature_of self.now).result }
    {
        match self.result {
            Some(kind) => kind.type_name(),
            None => "void",
        }
    }
}
