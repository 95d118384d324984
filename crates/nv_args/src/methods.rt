//! The methods of the API, by the crates that have their code.

/// A method of the API, by the crate that has its code (Neovim help `api`).
#[derive(Clone, Copy, Drop)]
pub enum Method {
    /// `nvim_call_atomic`, which makes calls of the others.
    Atomic,
    /// A call that does nothing, whatever its arguments.
    PassedOver,
    Buffer(BufferMethod),
    Mark(MarkMethod),
    Window(WindowMethod),
    Ui(UiMethod),
}

/// A method on buffers, options, commands or the API itself (`nv_api_buf`).
#[derive(Clone, Copy, Drop)]
pub enum BufferMethod {
    GetApiInfo,
    SetClientInfo,
    Command,
    GetOptionValue,
    SetOptionValue,
    ListBufs,
    GetCurrentBuf,
    SetCurrentBuf,
    CreateBuf,
    BufDelete,
    BufIsValid,
    BufGetName,
    BufSetName,
    BufLineCount,
    BufGetChangedtick,
    BufGetOffset,
    BufGetLines,
    BufSetLines,
    BufGetText,
    BufSetText,
    BufAttach,
    BufDetach,
}

/// A method on namespaces, marks or highlight groups (`nv_api_mark`).
#[derive(Clone, Copy, Drop)]
pub enum MarkMethod {
    CreateNamespace,
    GetNamespaces,
    BufSetExtmark,
    BufDelExtmark,
    BufGetExtmarkById,
    BufGetExtmarks,
    BufClearNamespace,
    SetHl,
    GetHl,
    GetHlIdByName,
}

/// A method on windows or tabpages (`nv_api_win`).
#[derive(Clone, Copy, Drop)]
pub enum WindowMethod {
    ListWins,
    GetCurrentWin,
    SetCurrentWin,
    OpenWin,
    WinClose,
    WinIsValid,
    WinGetBuf,
    WinSetBuf,
    WinGetCursor,
    WinSetCursor,
    WinGetHeight,
    WinGetWidth,
    WinSetHeight,
    WinSetWidth,
    WinGetPosition,
    WinGetTabpage,
    ListTabpages,
    GetCurrentTabpage,
    SetCurrentTabpage,
    TabpageIsValid,
    TabpageListWins,
    TabpageGetWin,
    TabpageGetNumber,
}

/// A method of UIs, and `nvim_strwidth` (`nv_api_ui`).
#[derive(Clone, Copy, Drop)]
pub enum UiMethod {
    Strwidth,
    UiAttach,
    UiDetach,
    UiTryResize,
    UiSetOption,
    ListUis,
}
