use crate::work::Site;
use kernel_eval::Windows;
use problem_types::Task;
use task_check::Checked;

/// What the kernels of a detailed task on a patch run on.
#[derive(Clone, Copy)]
pub(crate) struct PatchKernels<'a> {
    pub(crate) checked: &'a Checked,
    pub(crate) task: &'a Task,
    pub(crate) site: Site,
    pub(crate) windows: &'a Windows,
}
